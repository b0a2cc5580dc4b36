//! What stands around a tree while it is resolved.

ghost use Rattle.std.specs.Prelude.{◌≡◌, ℕ, List, [], ◌∷◌, ◌++◌, IfOk, IfErr, OnOk, Some, length, set, slice_get, take};
ghost use Rattle.reading_trees.specs.Trees.{Tree};
ghost use Rattle.names_terms.specs.TermViews.{node_view};
ghost use Rattle.names_terms.specs.Terms.{Placed};
ghost use Rattle.names_terms.specs.Levels.{level_for, of_operator};
ghost use Rattle.names_term_parts.specs.Slots.{MentionsBelow};
ghost use Rattle.names_meanings.specs.Complaints.{counted, told};
ghost use Rattle.names_terms.specs.declared.level.Level.TheVariants.{Constant};
ghost use Rattle.names_terms.specs.declared.operator.Own.TheVariants.{Apart, Function};
ghost use Rattle.names_terms.specs.Terms.{level_of};
ghost use Rattle.names_meanings.specs.Means.{Means, local_operator, no_body};
ghost use Rattle.names_meanings.specs.Outcomes.{above, meant_above, Complains, IsSought, KeepsOrder, takes_in};
ghost use Rattle.names_scopes.specs.Standing.{IsIn, AreIn};
ghost use Rattle.names_scopes.specs.Scopes.{bind, bind_bounds, slots};

use crate::fault::NameFault;
use crate::lookup::sought;
use base_core::{NoMemory, Place, Text};
use names_scopes::{Local, Meant, ProgramNames, Scope, level_for, meaning};
use names_terms::{DefId, Level, Operator, Operators, Own, Term, TermNode};
use reading_trees::Bounds;
use std::alloc::Global;
use std::marker::Model;
use values_core::Value;

/// Where a body stands that is not there yet.
const NOWHERE: Place = Place {
    file: 0,
    line: 0,
    col: 0,
};

/// Whether what is meant is above level 0.
fn meant_above(table: &Operators, meant: &Meant) -> bool
    ensures { result ≡ meant_above table.now meant.now }
{
    match meant {
        Meant::Variable(_) => true,
        Meant::Definition(number) => is_above(table, number.0),
        Meant::Slot(_) => false,
        Meant::Known(_) => false,
        Meant::Set(_) => false,
        Meant::Standard(_) => false,
    }
}

/// Whether a level is above 0.
fn above(level: Level) -> bool
    ensures { result ≡ above level }
{
    match level {
        Level::Constant => false,
        Level::State => true,
        Level::Action => true,
        Level::Temporal => true,
    }
}

/// Whether the definition of that number is above level 0.
fn is_above(table: &Operators, number: usize) -> bool
    ensures { result ≡ above (of_operator (slice_get table.now number)) }
{
    match table.get(number) {
        Some(operator) => above(operator.level),
        None => false,
    }
}

/// The names of the program, those that are bound around the place, and the table of definitions so far. Each definition that a name means stands
/// in the table.
#[derive(Drop)]
pub struct Walk<'a> {
    names: &'a ProgramNames,
    scope: Scope,
    table: Operators,
}

impl<'a> Model for Walk<'a> {
    ghost use Rattle.names_meanings.specs.Around.{Around, IsAround};
    ghost use Rattle.std.specs.Coded.{codes};
    ghost use Rattle.values_core.specs.Tree.{val_code};
    ghost use Rattle.names_terms.specs.OperatorsCode.{operators_code};

    ghost Value = { Around };

    ghost coded = { Prim.hlevel (codes, val_code, operators_code) };

    ghost view = { λ w. record { here = record { names = w.names.now; scope = w.scope }; table = w.table } };

    ghost invariant = { λ w. IsAround w.names.now w.scope w.table };
}

impl<'a> Walk<'a> {
    ghost use Rattle.names_meanings.specs.Around.{IsAround, takes};
    ghost use Rattle.names_scopes.specs.declared.scope.Local.TheVariants.{Defined};

    /// Over these names with nothing bound.
    pub fn new(alloc: Global, names: &'a ProgramNames, table: Operators) -> Walk<'a>
        requires known { AreIn (length table) names.now }
        ensures names { result.here.names ≡ names.entry.now }
        ensures scope { result.here.scope ≡ [] }
        ensures table { result.table ≡ table }
    {
        Walk {
            names,
            scope: Scope::new(alloc),
            table,
        }
    }

    /// The table of definitions.
    pub fn into_table(self) -> Operators
        ensures table { result ≡ self.entry.table }
        ensures known { AreIn (length result) self.entry.here.names }
    {
        let Walk {
            names: _,
            scope: _,
            table,
        } = self;
        table
    }

    /// How many names are bound around.
    pub fn depth(&self) -> usize
        ensures { result ≡ length self.now.here.scope }
    {
        self.scope.len()
    }

    /// Lets go of all but the first names, so many of them.
    #[tactic(auto, using(crate::proofs::AroundLemmas::around_cut))]
    pub fn cut(&mut self, depth: usize)
        ensures { self.new ≡ record self.old { here = record self.old.here { scope = take depth self.old.here.scope } } }
    {
        self.scope.cut(depth);
    }

    /// Binds names, each behind those before it.
    #[tactic(auto, using(crate::proofs::AroundLemmas::around_slots))]
    pub fn bind(&mut self, names: &[Text]) -> Result<(), NoMemory>
        ensures { OnOk result (self.new ≡ record self.old { here = record self.old.here { scope = bind self.old.here.scope names.now } }) }
    {
        self.scope.bind(names)
    }

    /// Binds the names of bounds.
    #[tactic(auto, using(crate::proofs::AroundLemmas::around_slots))]
    pub fn bind_bounds(&mut self, bounds: &Bounds) -> Result<(), NoMemory>
        ensures { OnOk result (self.new ≡ record self.old { here = record self.old.here { scope = bind_bounds self.old.here.scope bounds.now } }) }
    {
        self.scope.bind_bounds(bounds)
    }

    /// Binds a name.
    #[tactic(auto, using(crate::proofs::AroundLemmas::around_bound))]
    pub fn bind_name(&mut self, name: &Text) -> Result<(), NoMemory>
        ensures { OnOk result (self.new ≡ record self.old { here = record self.old.here { scope = bind self.old.here.scope (name.now ∷ []) } }) }
    {
        self.scope.push(Local::Bound(name.copy()?))
    }

    /// Adds a definition of a LET to the table, and binds its name. The body is what some tree means there, under some parameters.
    #[tactic(auto, using(crate::proofs::AroundLemmas::around_more, crate::proofs::AroundLemmas::around_defined))]
    pub fn define(
        &mut self,
        alloc: Global,
        name: &Text,
        params: usize,
        body: Term,
    ) -> Result<DefId, NoMemory>
        requires { (ps : List (List ℕ)) × (t : Tree) × Means self.old.here.names self.old.table (bind self.old.here.scope ps) t body }
        ensures number { IfOk result (λ k. k.0 ≡ length self.old.table) }
        ensures names { OnOk result (self.new.here.names ≡ self.old.here.names) }
        ensures scope { IfOk result (λ k. self.new.here.scope ≡ self.old.here.scope ++ Defined name.now k params ∷ []) }
        ensures table { OnOk result (self.new.table ≡ self.old.table ++ local_operator (slots self.old.here.scope) params Apart body ∷ []) }
        ensures ordered { OnOk result (KeepsOrder self.old.table self.new.table) }
    {
        let number = DefId(self.table.len());
        let outer = self.scope.slots();
        self.table.push(Operator {
            name: Text::from_text(alloc, "")?,
            outer,
            params,
            level: body.level,
            own: Own::Apart,
            body,
        })?;
        self.scope
            .push(Local::Defined(name.copy()?, number, params))?;
        Ok(number)
    }

    /// Keeps a place in the table for a function of a LET that uses itself, and binds its name. It has level 0; its body comes later.
    pub fn reserve(&mut self, alloc: Global, name: &Text, params: usize) -> Result<DefId, NoMemory>
        ensures number { IfOk result (λ k. k.0 ≡ length self.old.table) }
        ensures names { OnOk result (self.new.here.names ≡ self.old.here.names) }
        ensures scope { IfOk result (λ k. self.new.here.scope ≡ self.old.here.scope ++ Defined name.now k params ∷ []) }
        ensures table { OnOk result (self.new.table ≡ self.old.table ++ local_operator (slots self.old.here.scope) params Function no_body ∷ []) }
        ensures ordered { OnOk result (KeepsOrder self.old.table self.new.table) }
    {
        let node = TermNode::Known(Value::boolean(false));
        let body = Term::new(alloc, NOWHERE, Level::Constant, node)?;
        let number = DefId(self.table.len());
        let outer = self.scope.slots();
        self.table.push(Operator {
            name: Text::from_text(alloc, "")?,
            outer,
            params,
            level: Level::Constant,
            own: Own::Function,
            body,
        })?;
        self.scope
            .push(Local::Defined(name.copy()?, number, params))?;
        Ok(number)
    }

    /// Gives a function of a LET its body, for which a place was kept, and binds its name. The body is constant, and uses definitions of the table alone.
    pub fn settle(
        &mut self,
        number: DefId,
        name: &Text,
        params: usize,
        body: Term,
    ) -> Result<(), NoMemory>
        requires kept { slice_get self.old.table number.0 ≡ Some (local_operator (slots self.old.here.scope) params Function no_body) }
        requires constant { level_of body ≡ Constant }
        requires below { MentionsBelow (length self.old.table) body }
        ensures names { OnOk result (self.new.here.names ≡ self.old.here.names) }
        ensures scope { OnOk result (self.new.here.scope ≡ self.old.here.scope ++ Defined name.now number params ∷ []) }
        ensures table { OnOk result (self.new.table ≡ set self.old.table number.0 (local_operator (slots self.old.here.scope) params Function body)) }
        ensures ordered { OnOk result (KeepsOrder self.old.table self.new.table) }
    {
        let name = name.copy()?;
        self.table.set_body(number.0, body);
        self.scope.push(Local::Defined(name, number, params))?;
        Ok(())
    }

    /// Whether a name is above level 0 here.
    pub fn is_above(&self, name: &Text) -> Result<bool, NoMemory>
        ensures { IfOk result (λ b. b ≡ told (takes self.now) name.now) }
    {
        match meaning(self.names, &self.scope, name)? {
            Some(named) => Ok(meant_above(&self.table, &named.meant)),
            None => Ok(false),
        }
    }

    /// Each definition that a name means stands in the table.
    pub fn is_around(&self)
        ensures { IsAround self.now.here.names self.now.here.scope self.now.table }
    {
        let _ = &self.scope;
    }

    /// What a name means that is used with so many arguments, or why it means nothing there.
    pub fn sought(&self, name: &Text, at: Place, found: usize) -> Result<Meant, NameFault>
        ensures means { IfOk result (λ m. IsSought self.now.here.names self.now.here.scope name.now found m) }
        ensures within { IfOk result (λ m. IsIn (length self.now.table) m) }
        ensures refused { IfErr result (Complains (counted name.now at found (takes self.now name.now))) }
    {
        sought(self.names, &self.scope, name, at, found)
    }

    /// The term of this meaning at a place.
    pub fn placed(&self, alloc: Global, at: Place, node: TermNode) -> Result<Term, NoMemory>
        ensures { IfOk result (λ e. e ≡ Placed at (level_for self.now.table (node_view node)) (node_view node)) }
    {
        let level = level_for(&self.table, &node);
        Term::new(alloc, at, level, node)
    }
}
