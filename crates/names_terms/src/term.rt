//! Terms: expressions with every name resolved.

ghost use Rattle.std.specs.Prelude.{◌≡◌, IfOk, OnErr, OnOk, length, option_copied, option_map, slice_get};
ghost use Rattle.names_terms.specs.Lists.{terms_list, steps_list, bounds_list, fields_list, changes_list, arms_list};
ghost use Rattle.names_terms.specs.Terms.{Placed, First, MoreArms, MoreBounds, MoreChanges, MoreFields, MoreSteps, MoreTerms, Next, NoArms, NoBounds, NoChanges, NoFields, NoSteps, NoTerms};
ghost use Rattle.names_terms.specs.TermViews.{node_view, step_item, bound_item, field_item, change_item, arm_item, are_none, steps_are_none, step_view, terms_of, steps_of, bounds_of, fields_of, changes_of, arms_of, operands_of};

use crate::ids::{DefId, DefIds};
use crate::level::Level;
use crate::standard::{NamedSet, StandardOperator};
use base_core::{NoMemory, Place, Text};
use reading_trees::{InfixOperator, PrefixOperator, Quantifier};
use states_core::VarId;
use std::alloc::Global;
use std::marker::Model;
use values_core::Value;

/// An expression with every name resolved, seen as its term: with its place, which is that of the expression, and its level.
///
/// A term that no text spells has the place of the term that means it.
#[cycle(term)]
pub struct Term {
    pub at: Place,
    pub level: Level,
    pub node: Box<TermNode>,
}

/// A loop over the rows whose last part may hold any number of rows like it, as a long `ELSE IF`: such a row takes no stack.
impl Drop for Term {
    #[cycle(term)]
    fn drop(mut self) {
        loop {
            let Term {
                at: _,
                level: _,
                node,
            } = self;
            match Box::into_inner(node) {
                TermNode::If(test, then, last) => {
                    drop(test);
                    drop(then);
                    self = last;
                }
                TermNode::Quantified(_, bounds, last) => {
                    drop(bounds);
                    self = last;
                }
                TermNode::Choose(set, last) => {
                    drop(set);
                    self = last;
                }
                TermNode::Scoped(definitions, last) => {
                    drop(definitions);
                    self = last;
                }
                other => return drop(other),
            }
        }
    }
}

/// What a term means. A set of bounds has the number of the names that it binds and no names.
#[cycle(term)]
#[derive(Drop)]
pub enum TermNode {
    /// A number, a string, a truth value, or what the configuration gives for a constant.
    Known(Value),
    Named(NamedSet),
    Variable(VarId),
    /// A parameter or a bound name, counted from the outermost that is in scope.
    Slot(usize),
    /// A definition on these arguments.
    Use(DefId, Terms),
    Standard(StandardOperator, Terms),
    Parenthesized(Term),
    /// The definitions of a LET, as written, and what stands behind its IN.
    Scoped(DefIds, Term),
    /// A chain or a junction list of `/\`.
    All(Terms),
    /// A chain or a junction list of `\/`.
    Any(Terms),
    Prefix(PrefixOperator, Term),
    /// A chain of one operator other than `/\` and `\/`: its operands, the last apart.
    Infix(InfixOperator, Operands, Term),
    /// A primary and one or more steps behind it, the last apart.
    Postfix(Term, Steps, Step),
    SetOf(Terms),
    Filter(Term, Term),
    Map(Term, Bounds),
    Tuple(Terms),
    Function(Bounds, Term),
    FunctionSet(Term, Term),
    Record(Fields),
    RecordSet(Fields),
    Except(Term, Changes),
    Quantified(Quantifier, Bounds, Term),
    Choose(Term, Term),
    If(Term, Term, Term),
    Case(Arms, Option<Term>),
    BoxAction(Term, Term),
    AngleAction(Term, Term),
    Fairness(Term, Term),
}

/// A postfix step: `'`, `[a, b]` or `.h`.
#[cycle(term)]
#[derive(Drop)]
pub enum Step {
    Prime,
    Index(Terms),
    Field(Text),
}

/// A postfix step and the place of its first token.
#[cycle(term)]
#[derive(Drop)]
pub struct StepAt {
    pub at: Place,
    pub step: Step,
}

/// An operand and the place of the operator before it.
#[cycle(term)]
#[derive(Drop)]
pub struct Operand {
    pub at: Place,
    pub value: Term,
}

/// A number of names bound over one set, as the two of `x, y \in S`.
#[cycle(term)]
#[derive(Drop)]
pub struct Bound {
    pub names: usize,
    pub set: Term,
}

/// A field of a record or of a set of records.
#[cycle(term)]
#[derive(Drop)]
pub struct Field {
    pub name: Text,
    pub value: Term,
}

/// One change of an EXCEPT: its path, one or more steps without a prime, and the new value.
#[cycle(term)]
#[derive(Drop)]
pub struct Change {
    pub path: Steps,
    pub value: Term,
}

/// An arm of a CASE.
#[cycle(term)]
#[derive(Drop)]
pub struct Arm {
    pub test: Term,
    pub value: Term,
}

/// A list of terms.
#[cycle(term)]
#[derive(Drop)]
pub struct Terms {
    items: Vec<Term>,
}

/// A list of postfix steps.
#[cycle(term)]
#[derive(Drop)]
pub struct Steps {
    items: Vec<StepAt>,
}

/// A list of bounds.
#[cycle(term)]
#[derive(Drop)]
pub struct Bounds {
    items: Vec<Bound>,
}

/// A list of fields.
#[cycle(term)]
#[derive(Drop)]
pub struct Fields {
    items: Vec<Field>,
}

/// A list of changes.
#[cycle(term)]
#[derive(Drop)]
pub struct Changes {
    items: Vec<Change>,
}

/// A list of arms.
#[cycle(term)]
#[derive(Drop)]
pub struct Arms {
    items: Vec<Arm>,
}

/// The operands of a chain but its last: the first, and those behind it with the places of the operators before them.
#[cycle(term)]
#[derive(Drop)]
pub struct Operands {
    first: Box<Term>,
    others: Vec<Operand>,
}

impl Model for Term {
    ghost use Rattle.names_terms.specs.Terms.{Term as Seen};
    ghost use Rattle.names_terms.specs.TermSizes.{term_size};
    ghost use Rattle.names_terms.specs.TermCodes.{term_code};

    ghost Value = { Seen };

    ghost coded = { term_code };

    ghost use Rattle.names_terms.specs.Terms.{Placed};
    ghost use Rattle.names_terms.specs.TermViews.{node_view};

    ghost view = { λ a. Placed a.at a.level (node_view a.node.value) };

    ghost size = { term_size };

    ghost use Rattle.names_terms.specs.TermFalls.{term_falls};

    ghost size_decreases = { λ a h. term_falls a.at a.level a.node.value };
}

impl Model for Terms {
    ghost use Rattle.names_terms.specs.Terms.{Terms};
    ghost use Rattle.names_terms.specs.TermSizes.{terms_size};
    ghost use Rattle.names_terms.specs.TermCodes.{terms_code};

    ghost Value = { Terms };

    ghost coded = { terms_code };

    ghost use Rattle.names_terms.specs.TermViews.{terms_of};

    ghost view = { λ a. terms_of a.items.items };

    ghost size = { terms_size };

    ghost use Rattle.names_terms.specs.TermFalls.{terms_falls};

    ghost size_decreases = { λ a h. terms_falls a.items.items };
}

impl Model for Steps {
    ghost use Rattle.names_terms.specs.Terms.{Steps};
    ghost use Rattle.names_terms.specs.TermSizes.{steps_size};
    ghost use Rattle.names_terms.specs.TermCodes.{steps_code};

    ghost Value = { Steps };

    ghost coded = { steps_code };

    ghost use Rattle.names_terms.specs.TermViews.{steps_of};

    ghost view = { λ a. steps_of a.items.items };

    ghost size = { steps_size };

    ghost use Rattle.names_terms.specs.TermFalls.{steps_falls};

    ghost size_decreases = { λ a h. steps_falls a.items.items };
}

impl Model for Bounds {
    ghost use Rattle.names_terms.specs.Terms.{Bounds};
    ghost use Rattle.names_terms.specs.TermSizes.{bounds_size};
    ghost use Rattle.names_terms.specs.TermCodes.{bounds_code};

    ghost Value = { Bounds };

    ghost coded = { bounds_code };

    ghost use Rattle.names_terms.specs.TermViews.{bounds_of};

    ghost view = { λ a. bounds_of a.items.items };

    ghost size = { bounds_size };

    ghost use Rattle.names_terms.specs.TermFalls.{bounds_falls};

    ghost size_decreases = { λ a h. bounds_falls a.items.items };
}

impl Model for Fields {
    ghost use Rattle.names_terms.specs.Terms.{Fields};
    ghost use Rattle.names_terms.specs.TermSizes.{fields_size};
    ghost use Rattle.names_terms.specs.TermCodes.{fields_code};

    ghost Value = { Fields };

    ghost coded = { fields_code };

    ghost use Rattle.names_terms.specs.TermViews.{fields_of};

    ghost view = { λ a. fields_of a.items.items };

    ghost size = { fields_size };

    ghost use Rattle.names_terms.specs.TermFalls.{fields_falls};

    ghost size_decreases = { λ a h. fields_falls a.items.items };
}

impl Model for Changes {
    ghost use Rattle.names_terms.specs.Terms.{Changes};
    ghost use Rattle.names_terms.specs.TermSizes.{changes_size};
    ghost use Rattle.names_terms.specs.TermCodes.{changes_code};

    ghost Value = { Changes };

    ghost coded = { changes_code };

    ghost use Rattle.names_terms.specs.TermViews.{changes_of};

    ghost view = { λ a. changes_of a.items.items };

    ghost size = { changes_size };

    ghost use Rattle.names_terms.specs.TermFalls.{changes_falls};

    ghost size_decreases = { λ a h. changes_falls a.items.items };
}

impl Model for Arms {
    ghost use Rattle.names_terms.specs.Terms.{Arms};
    ghost use Rattle.names_terms.specs.TermSizes.{arms_size};
    ghost use Rattle.names_terms.specs.TermCodes.{arms_code};

    ghost Value = { Arms };

    ghost coded = { arms_code };

    ghost use Rattle.names_terms.specs.TermViews.{arms_of};

    ghost view = { λ a. arms_of a.items.items };

    ghost size = { arms_size };

    ghost use Rattle.names_terms.specs.TermFalls.{arms_falls};

    ghost size_decreases = { λ a h. arms_falls a.items.items };
}

impl Model for Operands {
    ghost use Rattle.names_terms.specs.Terms.{Operands};
    ghost use Rattle.names_terms.specs.TermSizes.{operands_size};
    ghost use Rattle.names_terms.specs.TermCodes.{operands_code};

    ghost Value = { Operands };

    ghost coded = { operands_code };

    ghost use Rattle.names_terms.specs.TermViews.{operands_of};

    ghost view = { λ a. operands_of a.first.value a.others.items };

    ghost size = { operands_size };

    ghost use Rattle.names_terms.specs.TermFalls.{operands_falls};

    ghost size_decreases = { λ a h. operands_falls a.first.value a.others.items };
}

impl Term {
    /// The term of a node, which gets a box of its own.
    pub fn new(alloc: Global, at: Place, level: Level, node: TermNode) -> Result<Term, NoMemory>
        ensures { IfOk result (λ t. t ≡ Placed at level (node_view node)) }
    {
        let node = Box::new(alloc, node)?;
        Ok(Term { at, level, node })
    }
}

impl Terms {
    /// An empty list.
    pub fn new(alloc: Global) -> Terms
        ensures { result ≡ NoTerms }
    {
        Terms {
            items: Vec::new(alloc),
        }
    }

    /// Adds one at the end. On a refusal the list is as it was.
    pub fn push(&mut self, item: Term) -> Result<(), NoMemory>
        ensures pushed { OnOk result (self.new ≡ MoreTerms self.old item) }
        ensures kept { OnErr result (self.new ≡ self.old) }
    {
        self.items.push(item)?;
        Ok(())
    }

    /// Whether there are none.
    pub fn is_empty(&self) -> bool
        ensures { result ≡ are_none self.now }
    {
        let items = self.items();
        items.is_empty()
    }

    /// How many terms there are.
    pub fn len(&self) -> usize
        ensures { result ≡ length (terms_list self.now) }
    {
        self.items.len()
    }

    /// The term of that index, from 0.
    pub fn get(&self, i: usize) -> Option<&Term>
        ensures { option_copied result ≡ slice_get (terms_list self.now) i }
    {
        self.items.get(i)
    }

    /// The items in their order.
    pub fn items(&self) -> &[Term]
        ensures { terms_of result.now ≡ self.now }
    {
        &self.items
    }
}

impl Steps {
    /// An empty list.
    pub fn new(alloc: Global) -> Steps
        ensures { result ≡ NoSteps }
    {
        Steps {
            items: Vec::new(alloc),
        }
    }

    /// Adds one at the end. On a refusal the list is as it was.
    pub fn push(&mut self, item: StepAt) -> Result<(), NoMemory>
        ensures pushed { OnOk result (self.new ≡ MoreSteps self.old item.at (step_view item.step)) }
        ensures kept { OnErr result (self.new ≡ self.old) }
    {
        self.items.push(item)?;
        Ok(())
    }

    /// Whether there are none.
    pub fn is_empty(&self) -> bool
        ensures { result ≡ steps_are_none self.now }
    {
        let items = self.items();
        items.is_empty()
    }

    /// How many steps there are.
    pub fn len(&self) -> usize
        ensures { result ≡ length (steps_list self.now) }
    {
        self.items.len()
    }

    /// The step of that index, from 0.
    pub fn get(&self, i: usize) -> Option<&StepAt>
        ensures { option_map step_item (option_copied result) ≡ slice_get (steps_list self.now) i }
    {
        self.items.get(i)
    }

    /// The items in their order.
    pub fn items(&self) -> &[StepAt]
        ensures { steps_of result.now ≡ self.now }
    {
        &self.items
    }
}

impl Bounds {
    /// An empty list.
    pub fn new(alloc: Global) -> Bounds
        ensures { result ≡ NoBounds }
    {
        Bounds {
            items: Vec::new(alloc),
        }
    }

    /// Adds one at the end. On a refusal the list is as it was.
    pub fn push(&mut self, item: Bound) -> Result<(), NoMemory>
        ensures pushed { OnOk result (self.new ≡ MoreBounds self.old item.names item.set) }
        ensures kept { OnErr result (self.new ≡ self.old) }
    {
        self.items.push(item)?;
        Ok(())
    }

    /// How many bounds there are.
    pub fn len(&self) -> usize
        ensures { result ≡ length (bounds_list self.now) }
    {
        self.items.len()
    }

    /// The bound of that index, from 0.
    pub fn get(&self, i: usize) -> Option<&Bound>
        ensures { option_map bound_item (option_copied result) ≡ slice_get (bounds_list self.now) i }
    {
        self.items.get(i)
    }

    /// The items in their order.
    pub fn items(&self) -> &[Bound]
        ensures { bounds_of result.now ≡ self.now }
    {
        &self.items
    }
}

impl Fields {
    /// An empty list.
    pub fn new(alloc: Global) -> Fields
        ensures { result ≡ NoFields }
    {
        Fields {
            items: Vec::new(alloc),
        }
    }

    /// Adds one at the end. On a refusal the list is as it was.
    pub fn push(&mut self, item: Field) -> Result<(), NoMemory>
        ensures pushed { OnOk result (self.new ≡ MoreFields self.old item.name item.value) }
        ensures kept { OnErr result (self.new ≡ self.old) }
    {
        self.items.push(item)?;
        Ok(())
    }

    /// How many fields there are.
    pub fn len(&self) -> usize
        ensures { result ≡ length (fields_list self.now) }
    {
        self.items.len()
    }

    /// The field of that index, from 0.
    pub fn get(&self, i: usize) -> Option<&Field>
        ensures { option_map field_item (option_copied result) ≡ slice_get (fields_list self.now) i }
    {
        self.items.get(i)
    }

    /// The items in their order.
    pub fn items(&self) -> &[Field]
        ensures { fields_of result.now ≡ self.now }
    {
        &self.items
    }
}

impl Changes {
    /// An empty list.
    pub fn new(alloc: Global) -> Changes
        ensures { result ≡ NoChanges }
    {
        Changes {
            items: Vec::new(alloc),
        }
    }

    /// Adds one at the end. On a refusal the list is as it was.
    pub fn push(&mut self, item: Change) -> Result<(), NoMemory>
        ensures pushed { OnOk result (self.new ≡ MoreChanges self.old item.path item.value) }
        ensures kept { OnErr result (self.new ≡ self.old) }
    {
        self.items.push(item)?;
        Ok(())
    }

    /// How many changes there are.
    pub fn len(&self) -> usize
        ensures { result ≡ length (changes_list self.now) }
    {
        self.items.len()
    }

    /// The change of that index, from 0.
    pub fn get(&self, i: usize) -> Option<&Change>
        ensures { option_map change_item (option_copied result) ≡ slice_get (changes_list self.now) i }
    {
        self.items.get(i)
    }

    /// The items in their order.
    pub fn items(&self) -> &[Change]
        ensures { changes_of result.now ≡ self.now }
    {
        &self.items
    }
}

impl Arms {
    /// An empty list.
    pub fn new(alloc: Global) -> Arms
        ensures { result ≡ NoArms }
    {
        Arms {
            items: Vec::new(alloc),
        }
    }

    /// Adds one at the end. On a refusal the list is as it was.
    pub fn push(&mut self, item: Arm) -> Result<(), NoMemory>
        ensures pushed { OnOk result (self.new ≡ MoreArms self.old item.test item.value) }
        ensures kept { OnErr result (self.new ≡ self.old) }
    {
        self.items.push(item)?;
        Ok(())
    }

    /// How many arms there are.
    pub fn len(&self) -> usize
        ensures { result ≡ length (arms_list self.now) }
    {
        self.items.len()
    }

    /// The arm of that index, from 0.
    pub fn get(&self, i: usize) -> Option<&Arm>
        ensures { option_map arm_item (option_copied result) ≡ slice_get (arms_list self.now) i }
    {
        self.items.get(i)
    }

    /// The items in their order.
    pub fn items(&self) -> &[Arm]
        ensures { arms_of result.now ≡ self.now }
    {
        &self.items
    }
}

impl Operands {
    /// One operand.
    pub fn new(alloc: Global, first: Term) -> Result<Operands, NoMemory>
        ensures { IfOk result (λ o. o ≡ First first) }
    {
        Ok(Operands {
            first: Box::new(alloc, first)?,
            others: Vec::new(alloc),
        })
    }

    /// Adds an operand behind the operator of that place. On a refusal the list is as it was.
    pub fn push(&mut self, item: Operand) -> Result<(), NoMemory>
        ensures pushed { OnOk result (self.new ≡ Next self.old item.at item.value) }
        ensures kept { OnErr result (self.new ≡ self.old) }
    {
        self.others.push(item)?;
        Ok(())
    }

    /// The first operand, and those behind it.
    pub fn into_parts(self) -> (Term, Vec<Operand>)
        ensures { operands_of result.0 result.1.items ≡ self }
    {
        let Operands { first, others } = self;
        (Box::into_inner(first), others)
    }

    /// The first operand, and those behind it.
    pub fn parts(&self) -> (&Term, &[Operand])
        ensures { operands_of result.0.now result.1.now ≡ self.now }
    {
        (&self.first, &self.others)
    }
}
