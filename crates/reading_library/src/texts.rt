//! The texts of the library's modules. `tools/library` writes them, from docs/library.

ghost use Rattle.std.specs.Prelude.{◌≡◌};
ghost use Rattle.reading_library.specs.Texts.{bags, bags_ext, bags_theorems, finite_set_theorems, finite_sets_ext, finite_sets_ext_theorems, folds, function_theorems, functions, jections, naturals_induction, sequence_theorems, sequences_ext, sequences_ext_theorems, tlaps, well_founded_induction};

const BAGS: &str = "---- MODULE Bags ----
EXTENDS Naturals, TLC

\\* A bag is a function: of each member how often it belongs.
IsABag(B) == \\A e \\in DOMAIN B : B[e] \\in Nat /\\ B[e] > 0

BagToSet(B) == DOMAIN B

SetToBag(S) == [e \\in S |-> 1]

BagIn(e, B) == e \\in DOMAIN B

EmptyBag == SetToBag({})

CopiesIn(e, B) == IF BagIn(e, B) THEN B[e] ELSE 0

BagCardinality(B) ==
    LET Copies[T \\in SUBSET DOMAIN B] ==
            IF T = {} THEN 0 ELSE LET e == CHOOSE x \\in T : TRUE IN B[e] + Copies[T \\ {e}]
    IN  Copies[DOMAIN B]

\\* The bag of a set of bags: each member as often as in all of them together.
BagUnion(S) ==
    LET Copies[e \\in UNION {DOMAIN B : B \\in S}, T \\in SUBSET S] ==
            IF T = {} THEN 0 ELSE LET B == CHOOSE C \\in T : TRUE IN CopiesIn(e, B) + Copies[e, T \\ {B}]
    IN  [e \\in UNION {DOMAIN B : B \\in S} |-> Copies[e, S]]

\\* The bags that have no member more often than B.
SubBag(B) ==
    LET Below[T \\in SUBSET DOMAIN B] ==
            IF T = {}
            THEN {EmptyBag}
            ELSE LET e == CHOOSE x \\in T : TRUE
                     without == Below[T \\ {e}]
                 IN  without \\cup {C @@ (e :> n) : C \\in without, n \\in 1..B[e]}
    IN  Below[DOMAIN B]
====
";

#[tactic(auto, unfolding(crate::specs::Texts::bags))]
pub(crate) fn bags() -> &'static str
    ensures { result.now ≡ bags }
{
    BAGS
}

const BAGS_EXT: &str = "---- MODULE BagsExt ----
EXTENDS Naturals

\\* The bag B with x once more, once less, and not at all.
BagAdd(B, x) == [e \\in DOMAIN B \\cup {x} |-> IF e \\notin DOMAIN B THEN 1 ELSE IF e = x THEN B[e] + 1 ELSE B[e]]

BagRemoveAll(B, x) == [e \\in DOMAIN B \\ {x} |-> B[e]]

BagRemove(B, x) ==
    IF x \\notin DOMAIN B
    THEN B
    ELSE IF B[x] = 1 THEN BagRemoveAll(B, x) ELSE [B EXCEPT ![x] = B[x] - 1]
====
";

#[tactic(auto, unfolding(crate::specs::Texts::bags_ext))]
pub(crate) fn bags_ext() -> &'static str
    ensures { result.now ≡ bags_ext }
{
    BAGS_EXT
}

const BAGS_THEOREMS: &str = "---- MODULE BagsTheorems ----
EXTENDS Bags, FiniteSetTheorems
====
";

#[tactic(auto, unfolding(crate::specs::Texts::bags_theorems))]
pub(crate) fn bags_theorems() -> &'static str
    ensures { result.now ≡ bags_theorems }
{
    BAGS_THEOREMS
}

const FINITE_SET_THEOREMS: &str = "---- MODULE FiniteSetTheorems ----
EXTENDS FiniteSets, Functions, WellFoundedInduction
====
";

#[tactic(auto, unfolding(crate::specs::Texts::finite_set_theorems))]
pub(crate) fn finite_set_theorems() -> &'static str
    ensures { result.now ≡ finite_set_theorems }
{
    FINITE_SET_THEOREMS
}

const FINITE_SETS_EXT: &str = "---- MODULE FiniteSetsExt ----
EXTENDS Integers, FiniteSets

\\* The greatest and the least member of a set of numbers.
Max(S) == CHOOSE x \\in S : \\A y \\in S : y <= x

Min(S) == CHOOSE x \\in S : \\A y \\in S : x <= y

\\* What belongs to one of two sets and not to both.
SymDiff(A, B) == (A \\ B) \\cup (B \\ A)

\\* The subsets with k members: those with one member less, and one more.
kSubset(k, S) ==
    LET OfSize[n \\in 0..k] ==
            IF n = 0 THEN {{}} ELSE UNION {{T \\cup {x} : x \\in S \\ T} : T \\in OfSize[n - 1]}
    IN  IF k \\in 0..Cardinality(S) THEN OfSize[k] ELSE {}

\\* The sum and the product of a set of numbers.
SumSet(S) ==
    LET Sum[T \\in SUBSET S] ==
            IF T = {} THEN 0 ELSE LET x == CHOOSE y \\in T : TRUE IN x + Sum[T \\ {x}]
    IN  Sum[S]

ProductSet(S) ==
    LET Product[T \\in SUBSET S] ==
            IF T = {} THEN 1 ELSE LET x == CHOOSE y \\in T : TRUE IN x * Product[T \\ {x}]
    IN  Product[S]
====
";

#[tactic(auto, unfolding(crate::specs::Texts::finite_sets_ext))]
pub(crate) fn finite_sets_ext() -> &'static str
    ensures { result.now ≡ finite_sets_ext }
{
    FINITE_SETS_EXT
}

const FINITE_SETS_EXT_THEOREMS: &str = "---- MODULE FiniteSetsExtTheorems ----
EXTENDS FiniteSetsExt, FiniteSetTheorems
====
";

#[tactic(auto, unfolding(crate::specs::Texts::finite_sets_ext_theorems))]
pub(crate) fn finite_sets_ext_theorems() -> &'static str
    ensures { result.now ≡ finite_sets_ext_theorems }
{
    FINITE_SETS_EXT_THEOREMS
}

const FOLDS: &str = "---- MODULE Folds ----
====
";

#[tactic(auto, unfolding(crate::specs::Texts::folds))]
pub(crate) fn folds() -> &'static str
    ensures { result.now ≡ folds }
{
    FOLDS
}

const FUNCTION_THEOREMS: &str = "---- MODULE FunctionTheorems ----
EXTENDS Functions, Integers
====
";

#[tactic(auto, unfolding(crate::specs::Texts::function_theorems))]
pub(crate) fn function_theorems() -> &'static str
    ensures { result.now ≡ function_theorems }
{
    FUNCTION_THEOREMS
}

const FUNCTIONS: &str = "---- MODULE Functions ----
EXTENDS Naturals, FiniteSets

Restrict(f, S) == [x \\in S |-> f[x]]

IsRestriction(f, g) == DOMAIN f \\subseteq DOMAIN g /\\ \\A x \\in DOMAIN f : f[x] = g[x]

Range(f) == {f[x] : x \\in DOMAIN f}

\\* What f, from S, leads back from T: of t an s with f[s] = t, where there is one.
Inverse(f, S, T) == [t \\in T |-> CHOOSE s \\in S : t \\in Range(f) => f[s] = t]

AntiFunction(f) == Inverse(f, DOMAIN f, Range(f))

IsInjective(f) == \\A x, y \\in DOMAIN f : f[x] = f[y] => x = y

Injection(S, T) == {f \\in [S -> T] : IsInjective(f)}

Surjection(S, T) == {f \\in [S -> T] : T \\subseteq Range(f)}

Bijection(S, T) == {f \\in Injection(S, T) : T \\subseteq Range(f)}

\\* Whether there is such a function, told by the sizes of finite sets.
ExistsInjection(S, T) == Cardinality(S) <= Cardinality(T)

ExistsSurjection(S, T) == Cardinality(T) <= Cardinality(S) /\\ (T = {} => S = {})

ExistsBijection(S, T) == Cardinality(S) = Cardinality(T)
====
";

#[tactic(auto, unfolding(crate::specs::Texts::functions))]
pub(crate) fn functions() -> &'static str
    ensures { result.now ≡ functions }
{
    FUNCTIONS
}

const JECTIONS: &str = "---- MODULE Jections ----
====
";

#[tactic(auto, unfolding(crate::specs::Texts::jections))]
pub(crate) fn jections() -> &'static str
    ensures { result.now ≡ jections }
{
    JECTIONS
}

const NATURALS_INDUCTION: &str = "---- MODULE NaturalsInduction ----
EXTENDS Integers, TLAPS
====
";

#[tactic(auto, unfolding(crate::specs::Texts::naturals_induction))]
pub(crate) fn naturals_induction() -> &'static str
    ensures { result.now ≡ naturals_induction }
{
    NATURALS_INDUCTION
}

const SEQUENCE_THEOREMS: &str = "---- MODULE SequenceTheorems ----
EXTENDS Sequences, Functions, WellFoundedInduction
====
";

#[tactic(auto, unfolding(crate::specs::Texts::sequence_theorems))]
pub(crate) fn sequence_theorems() -> &'static str
    ensures { result.now ≡ sequence_theorems }
{
    SEQUENCE_THEOREMS
}

const SEQUENCES_EXT: &str = "---- MODULE SequencesExt ----
EXTENDS Integers, Sequences, FiniteSets

ToSet(s) == {s[i] : i \\in DOMAIN s}

\\* A sequence of all members of a set, each once; and all such sequences.
SetToSeq(S) ==
    LET Listed[T \\in SUBSET S] ==
            IF T = {} THEN <<>> ELSE LET x == CHOOSE y \\in T : TRUE IN <<x>> \\o Listed[T \\ {x}]
    IN  Listed[S]

SetToSeqs(S) ==
    LET Orders[T \\in SUBSET S] ==
            IF T = {} THEN {<<>>} ELSE UNION {{<<x>> \\o s : s \\in Orders[T \\ {x}]} : x \\in T}
    IN  Orders[S]

\\* The sequences over S of length n, and those of length n at most.
TupleOf(S, n) == [1..n -> S]

SeqOf(S, n) == UNION {[1..m -> S] : m \\in 0..n}

BoundedSeq(S, n) == SeqOf(S, n)

Contains(s, e) == \\E i \\in 1..Len(s) : s[i] = e

Reverse(s) == [i \\in 1..Len(s) |-> s[Len(s) - i + 1]]

\\* The sequences of a sequence, one behind the other.
FlattenSeq(seqs) ==
    LET Joined[i \\in 1..Len(seqs), j \\in 1..Len(seqs)] ==
            IF i = j
            THEN seqs[i]
            ELSE LET middle == (i + j) \\div 2 IN Joined[i, middle] \\o Joined[middle + 1, j]
    IN  IF Len(seqs) = 0 THEN <<>> ELSE Joined[1, Len(seqs)]

\\* Two sequences of one length, which is not 0: their items as pairs, or in turn.
Zip(s, t) == CASE Len(s) = Len(t) /\\ Len(s) > 0 -> [i \\in 1..Len(s) |-> <<s[i], t[i]>>]

Interleave(s, t) == FlattenSeq(Zip(s, t))

\\* Each e removed; the first one; the item at i.
Remove(s, e) == FlattenSeq([i \\in 1..Len(s) |-> IF s[i] = e THEN <<>> ELSE <<s[i]>>])

RemoveAt(s, i) == SubSeq(s, 1, i - 1) \\o SubSeq(s, i + 1, Len(s))

RemoveFirst(s, e) ==
    IF Contains(s, e)
    THEN RemoveAt(s, CHOOSE i \\in 1..Len(s) : s[i] = e /\\ \\A j \\in 1..(i - 1) : s[j] # e)
    ELSE s

ReplaceAll(s, old, new) == [i \\in 1..Len(s) |-> IF s[i] = old THEN new ELSE s[i]]

ReplaceAt(s, i, e) == [s EXCEPT ![i] = e]

\\* e stands at i, and what stood there and behind it stands behind e.
InsertAt(s, i, e) == SubSeq(s, 1, i - 1) \\o <<e>> \\o SubSeq(s, i, Len(s))

Front(s) == SubSeq(s, 1, Len(s) - 1)

Last(s) == s[Len(s)]

Cons(e, s) == <<e>> \\o s

IsPrefix(s, t) == Len(s) <= Len(t) /\\ s = SubSeq(t, 1, Len(s))

IsStrictPrefix(s, t) == IsPrefix(s, t) /\\ s # t

IsSuffix(s, t) == Len(s) <= Len(t) /\\ s = SubSeq(t, Len(t) - Len(s) + 1, Len(t))

IsStrictSuffix(s, t) == IsSuffix(s, t) /\\ s # t

Prefixes(s) == {SubSeq(s, 1, n) : n \\in 0..Len(s)}

Suffixes(s) == {SubSeq(s, n, Len(s)) : n \\in 1..(Len(s) + 1)}

\\* The sequences with which each member of a set of sequences begins, and the longest of them.
CommonPrefixes(S) == {p \\in UNION {Prefixes(s) : s \\in S} : \\A s \\in S : IsPrefix(p, s)}

LongestCommonPrefix(S) == CHOOSE p \\in CommonPrefixes(S) : \\A q \\in CommonPrefixes(S) : Len(q) <= Len(p)

\\* The number from 1 to b that stands for a in rounds of b.
SeqMod(a, b) == IF a % b = 0 THEN b ELSE a % b

\\* What stands in s from one place to another, without a gap; where s first stands in t so; and t with r in its place.
SubSeqs(s) == {SubSeq(s, i + 1, j) : i \\in 0..Len(s), j \\in 0..Len(s)}

IndexFirstSubSeq(s, t) ==
    LET Stands(i) == SubSeq(t, i, i + Len(s) - 1) = s
    IN  CHOOSE i \\in 1..(Len(t) - Len(s) + 1) : Stands(i) /\\ \\A j \\in 1..(i - 1) : ~Stands(j)

ReplaceSubSeqAt(i, r, s, t) == SubSeq(t, 1, i - 1) \\o r \\o SubSeq(t, i + Len(s), Len(t))

ReplaceFirstSubSeq(r, s, t) ==
    IF s \\in SubSeqs(t) THEN ReplaceSubSeqAt(IndexFirstSubSeq(s, t), r, s, t) ELSE t
====
";

#[tactic(auto, unfolding(crate::specs::Texts::sequences_ext))]
pub(crate) fn sequences_ext() -> &'static str
    ensures { result.now ≡ sequences_ext }
{
    SEQUENCES_EXT
}

const SEQUENCES_EXT_THEOREMS: &str = "---- MODULE SequencesExtTheorems ----
EXTENDS SequencesExt, SequenceTheorems
====
";

#[tactic(auto, unfolding(crate::specs::Texts::sequences_ext_theorems))]
pub(crate) fn sequences_ext_theorems() -> &'static str
    ensures { result.now ≡ sequences_ext_theorems }
{
    SEQUENCES_EXT_THEOREMS
}

const TLAPS: &str = "---- MODULE TLAPS ----
====
";

#[tactic(auto, unfolding(crate::specs::Texts::tlaps))]
pub(crate) fn tlaps() -> &'static str
    ensures { result.now ≡ tlaps }
{
    TLAPS
}

const WELL_FOUNDED_INDUCTION: &str = "---- MODULE WellFoundedInduction ----
EXTENDS NaturalsInduction
====
";

#[tactic(auto, unfolding(crate::specs::Texts::well_founded_induction))]
pub(crate) fn well_founded_induction() -> &'static str
    ensures { result.now ≡ well_founded_induction }
{
    WELL_FOUNDED_INDUCTION
}
