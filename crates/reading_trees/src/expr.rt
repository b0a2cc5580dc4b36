//! Syntax trees of expressions.

ghost use Rattle.std.specs.Prelude.{◌≡◌, ◌↔◌, ◌<◌, length, IfOk, OnErr, OnOk, IsSome, option_copied, slice_get};
ghost use Rattle.reading_trees.specs.TreeLists.{trees_list, steps_list, bounds_list, fields_list, changes_list, arms_list, definitions_list};
ghost use Rattle.reading_trees.specs.Trees.{MoreArms, MoreBounds, MoreChanges, MoreDefinitions, MoreFields, MoreSteps, MoreTrees, NoArms, NoBounds, NoChanges, NoDefinitions, NoFields, NoSteps, NoTrees};
ghost use Rattle.reading_trees.specs.TreeViews.{are_none, steps_are_none, node_view, step_view, trees_of, steps_of, bounds_of, fields_of, changes_of, arms_of, definitions_of, operands_of};

mod chain;

use crate::form::DefinitionForm;
use crate::laid::Bullet;
use crate::operators::{BuiltinSet, InfixOperator, PrefixOperator, Quantifier};
use base_core::{Names, NoMemory, Place, Text};
use std::alloc::Global;
use std::marker::Model;
use std::mem::replace;

/// An expression, seen as its tree.
///
/// A chain of infix operators or of postfix steps has the place of its last operator, all else that
/// of its first token.
#[cycle(expr)]
pub struct Expr {
    pub at: Place,
    pub node: Box<Node>,
}

/// A loop over the rows whose last part may hold any number of rows like it, as a long `ELSE IF`: such a row takes no stack.
impl Drop for Expr {
    #[cycle(expr)]
    fn drop(mut self) {
        loop {
            let Expr { at: _, node } = self;
            match Box::into_inner(node) {
                Node::If(test, then, last) => {
                    drop(test);
                    drop(then);
                    self = last;
                }
                Node::Quantified(_, bounds, last) => {
                    drop(bounds);
                    self = last;
                }
                Node::Choose(name, set, last) => {
                    drop(name);
                    drop(set);
                    self = last;
                }
                Node::Let(definitions, last) => {
                    drop(definitions);
                    self = last;
                }
                other => return drop(other),
            }
        }
    }
}

/// What an expression is, by the row of the grammar that spells it, with the parts of the row in their order.
#[cycle(expr)]
#[derive(Drop)]
pub enum Node {
    Number(i64),
    Str(Text),
    /// `TRUE` or `FALSE`
    Truth(bool),
    Builtin(BuiltinSet),
    Name(Text),
    /// `F(a, b)`
    Call(Text, Exprs),
    /// A name with a mark in it, as `I!N`, and its arguments: `I!N(a, b)`, or none.
    Qualified(Text, Exprs),
    /// `@`
    At,
    Parenthesized(Expr),
    /// A junction list and its items.
    Junction(Bullet, Exprs),
    Prefix(PrefixOperator, Expr),
    /// A chain of one operator: its operands, the last apart.
    Infix(InfixOperator, Operands, Expr),
    /// A primary and one or more steps behind it, the last apart.
    Postfix(Expr, Steps, Step),
    /// `{a, b}`
    SetOf(Exprs),
    /// `{x \in S : p}`
    Filter(Text, Expr, Expr),
    /// `{e : x \in S}`
    Map(Expr, Bounds),
    /// `<<a, b>>`
    Tuple(Exprs),
    /// `[x \in S |-> e]`
    Function(Bounds, Expr),
    /// `[S -> T]`
    FunctionSet(Expr, Expr),
    /// `[a |-> e, b |-> f]`
    Record(Fields),
    /// `[a : S, b : T]`
    RecordSet(Fields),
    /// `[f EXCEPT ![a] = e, !.b = g]`
    Except(Expr, Changes),
    Quantified(Quantifier, Bounds, Expr),
    /// `CHOOSE x \in S : p`
    Choose(Text, Expr, Expr),
    If(Expr, Expr, Expr),
    /// The arms, and what stands behind `OTHER`, if it is there.
    Case(Arms, Option<Expr>),
    Let(Definitions, Expr),
    /// `[A]_v`
    BoxAction(Expr, Expr),
    /// `<<A>>_v`
    AngleAction(Expr, Expr),
    /// `WF_v(A)` or `SF_v(A)`: the subscript, and the action.
    Fairness(Expr, Expr),
}

/// A postfix step: `'`, `[a, b]` or `.h`.
#[cycle(expr)]
#[derive(Drop)]
pub enum Step {
    Prime,
    Index(Exprs),
    Field(Text),
}

/// A postfix step and the place of its first token.
#[cycle(expr)]
#[derive(Drop)]
pub struct StepAt {
    pub at: Place,
    pub step: Step,
}

/// An operand and the place of the operator before it.
#[cycle(expr)]
#[derive(Drop)]
pub struct Operand {
    pub at: Place,
    pub value: Expr,
}

/// Names bound over one set, as `x, y \in S`.
#[cycle(expr)]
#[derive(Drop)]
pub struct Bound {
    pub names: Names,
    pub set: Expr,
}

/// A field of a record or of a set of records.
#[cycle(expr)]
#[derive(Drop)]
pub struct Field {
    pub name: Text,
    pub value: Expr,
}

/// One change of an EXCEPT: its path, one or more steps without a prime, and the new value.
#[cycle(expr)]
#[derive(Drop)]
pub struct Change {
    pub path: Steps,
    pub value: Expr,
}

/// An arm of a CASE.
#[cycle(expr)]
#[derive(Drop)]
pub struct Arm {
    pub test: Expr,
    pub value: Expr,
}

/// A definition: its name and the place of it, its parameters, its form and its body. `N[B] == E` has no parameters and
/// the body `[B |-> E]` at the place of its bracket.
#[cycle(expr)]
#[derive(Drop)]
pub struct Definition {
    pub name: Text,
    pub at: Place,
    pub params: Names,
    pub form: DefinitionForm,
    pub body: Expr,
}

/// A list of expressions.
#[cycle(expr)]
#[derive(Drop)]
pub struct Exprs {
    items: Vec<Expr>,
}

/// A list of postfix steps.
#[cycle(expr)]
#[derive(Drop)]
pub struct Steps {
    items: Vec<StepAt>,
}

/// A list of bounds.
#[cycle(expr)]
#[derive(Drop)]
pub struct Bounds {
    items: Vec<Bound>,
}

/// A list of fields.
#[cycle(expr)]
#[derive(Drop)]
pub struct Fields {
    items: Vec<Field>,
}

/// A list of changes.
#[cycle(expr)]
#[derive(Drop)]
pub struct Changes {
    items: Vec<Change>,
}

/// A list of arms.
#[cycle(expr)]
#[derive(Drop)]
pub struct Arms {
    items: Vec<Arm>,
}

/// A list of definitions.
#[cycle(expr)]
#[derive(Drop)]
pub struct Definitions {
    items: Vec<Definition>,
}

/// The operands of a chain but its last: the first, and those behind it with the places of the operators before them.
#[cycle(expr)]
#[derive(Drop)]
pub struct Operands {
    first: Box<Expr>,
    others: Vec<Operand>,
}

impl Expr {
    /// The expression of a node, which gets a box of its own.
    pub fn new(alloc: Global, at: Place, node: Node) -> Result<Expr, NoMemory>
        ensures { IfOk result (λ e. e ≡ node_view at node) }
    {
        let node = Box::new(alloc, node)?;
        Ok(Expr { at, node })
    }

    /// Its place and what it is.
    pub fn into_parts(self) -> (Place, Node)
        ensures { node_view result.0 result.1 ≡ self }
    {
        let mut whole = self;
        let node = replace(&mut *whole.node, Node::At);
        (whole.at, node)
    }
}

impl Model for Expr {
    ghost use Rattle.reading_trees.specs.Trees.{Tree};
    ghost use Rattle.reading_trees.specs.TreeSizes.{tree_size};
    ghost use Rattle.reading_trees.specs.TreeCodes.{tree_code};

    ghost Value = { Tree };

    ghost coded = { tree_code };

    ghost use Rattle.reading_trees.specs.TreeViews.{node_view};

    ghost view = { λ a. node_view a.at a.node.value };

    ghost size = { tree_size };

    ghost use Rattle.reading_trees.specs.TreeFalls.{tree_falls};

    ghost size_decreases = { λ a h. tree_falls a.at a.node.value };
}

impl Model for Exprs {
    ghost use Rattle.reading_trees.specs.Trees.{Trees};
    ghost use Rattle.reading_trees.specs.TreeSizes.{trees_size};
    ghost use Rattle.reading_trees.specs.TreeCodes.{trees_code};

    ghost Value = { Trees };

    ghost coded = { trees_code };

    ghost use Rattle.reading_trees.specs.TreeViews.{trees_of};

    ghost view = { λ a. trees_of a.items.items };

    ghost size = { trees_size };

    ghost use Rattle.reading_trees.specs.TreeFalls.{trees_falls};

    ghost size_decreases = { λ a h. trees_falls a.items.items };
}

impl Model for Steps {
    ghost use Rattle.reading_trees.specs.Trees.{Steps};
    ghost use Rattle.reading_trees.specs.TreeSizes.{steps_size};
    ghost use Rattle.reading_trees.specs.TreeCodes.{steps_code};

    ghost Value = { Steps };

    ghost coded = { steps_code };

    ghost use Rattle.reading_trees.specs.TreeViews.{steps_of};

    ghost view = { λ a. steps_of a.items.items };

    ghost size = { steps_size };

    ghost use Rattle.reading_trees.specs.TreeFalls.{steps_falls};

    ghost size_decreases = { λ a h. steps_falls a.items.items };
}

impl Model for Bounds {
    ghost use Rattle.reading_trees.specs.Trees.{Bounds};
    ghost use Rattle.reading_trees.specs.TreeSizes.{bounds_size};
    ghost use Rattle.reading_trees.specs.TreeCodes.{bounds_code};

    ghost Value = { Bounds };

    ghost coded = { bounds_code };

    ghost use Rattle.reading_trees.specs.TreeViews.{bounds_of};

    ghost view = { λ a. bounds_of a.items.items };

    ghost size = { bounds_size };

    ghost use Rattle.reading_trees.specs.TreeFalls.{bounds_falls};

    ghost size_decreases = { λ a h. bounds_falls a.items.items };
}

impl Model for Fields {
    ghost use Rattle.reading_trees.specs.Trees.{Fields};
    ghost use Rattle.reading_trees.specs.TreeSizes.{fields_size};
    ghost use Rattle.reading_trees.specs.TreeCodes.{fields_code};

    ghost Value = { Fields };

    ghost coded = { fields_code };

    ghost use Rattle.reading_trees.specs.TreeViews.{fields_of};

    ghost view = { λ a. fields_of a.items.items };

    ghost size = { fields_size };

    ghost use Rattle.reading_trees.specs.TreeFalls.{fields_falls};

    ghost size_decreases = { λ a h. fields_falls a.items.items };
}

impl Model for Changes {
    ghost use Rattle.reading_trees.specs.Trees.{Changes};
    ghost use Rattle.reading_trees.specs.TreeSizes.{changes_size};
    ghost use Rattle.reading_trees.specs.TreeCodes.{changes_code};

    ghost Value = { Changes };

    ghost coded = { changes_code };

    ghost use Rattle.reading_trees.specs.TreeViews.{changes_of};

    ghost view = { λ a. changes_of a.items.items };

    ghost size = { changes_size };

    ghost use Rattle.reading_trees.specs.TreeFalls.{changes_falls};

    ghost size_decreases = { λ a h. changes_falls a.items.items };
}

impl Model for Arms {
    ghost use Rattle.reading_trees.specs.Trees.{Arms};
    ghost use Rattle.reading_trees.specs.TreeSizes.{arms_size};
    ghost use Rattle.reading_trees.specs.TreeCodes.{arms_code};

    ghost Value = { Arms };

    ghost coded = { arms_code };

    ghost use Rattle.reading_trees.specs.TreeViews.{arms_of};

    ghost view = { λ a. arms_of a.items.items };

    ghost size = { arms_size };

    ghost use Rattle.reading_trees.specs.TreeFalls.{arms_falls};

    ghost size_decreases = { λ a h. arms_falls a.items.items };
}

impl Model for Definitions {
    ghost use Rattle.reading_trees.specs.Trees.{Definitions};
    ghost use Rattle.reading_trees.specs.TreeSizes.{definitions_size};
    ghost use Rattle.reading_trees.specs.TreeCodes.{definitions_code};

    ghost Value = { Definitions };

    ghost coded = { definitions_code };

    ghost use Rattle.reading_trees.specs.TreeViews.{definitions_of, operands_of};

    ghost view = { λ a. definitions_of a.items.items };

    ghost size = { definitions_size };

    ghost use Rattle.reading_trees.specs.TreeFalls.{definitions_falls};

    ghost size_decreases = { λ a h. definitions_falls a.items.items };
}

impl Model for Operands {
    ghost use Rattle.reading_trees.specs.Trees.{Operands};
    ghost use Rattle.reading_trees.specs.TreeSizes.{operands_size};
    ghost use Rattle.reading_trees.specs.TreeCodes.{operands_code};

    ghost Value = { Operands };

    ghost coded = { operands_code };

    ghost use Rattle.reading_trees.specs.TreeViews.{operands_of};

    ghost view = { λ a. operands_of a.first.value a.others.items };

    ghost size = { operands_size };

    ghost use Rattle.reading_trees.specs.TreeFalls.{operands_falls};

    ghost size_decreases = { λ a h. operands_falls a.first.value a.others.items };
}

impl Exprs {
    /// An empty list.
    pub fn new(alloc: Global) -> Exprs
        ensures { result ≡ NoTrees }
    {
        Exprs {
            items: Vec::new(alloc),
        }
    }

    /// Adds one at the end. On a refusal the list is as it was.
    pub fn push(&mut self, item: Expr) -> Result<(), NoMemory>
        ensures pushed { OnOk result (self.new ≡ MoreTrees self.old item) }
        ensures kept { OnErr result (self.new ≡ self.old) }
    {
        self.items.push(item)?;
        Ok(())
    }

    /// Whether there are none.
    pub fn is_empty(&self) -> bool
        ensures { result ≡ are_none self.now }
    {
        let items = self.items();
        items.is_empty()
    }

    /// How many expressions there are.
    pub fn len(&self) -> usize
        ensures { result ≡ length (trees_list self.now) }
    {
        self.items.len()
    }

    /// The expression of that index, from 0.
    pub fn get(&self, i: usize) -> Option<&Expr>
        ensures item { option_copied result ≡ slice_get (trees_list self.now) i }
        ensures within { IsSome result ↔ (i < length (trees_list self.now)) }
    {
        self.items.get(i)
    }

    /// The items in their order.
    pub fn items(&self) -> &[Expr]
        ensures { trees_of result.now ≡ self.now }
    {
        &self.items
    }
}

impl Steps {
    /// An empty list.
    pub fn new(alloc: Global) -> Steps
        ensures { result ≡ NoSteps }
    {
        Steps {
            items: Vec::new(alloc),
        }
    }

    /// Adds one at the end. On a refusal the list is as it was.
    pub fn push(&mut self, item: StepAt) -> Result<(), NoMemory>
        ensures pushed { OnOk result (self.new ≡ MoreSteps self.old item.at (step_view item.step)) }
        ensures kept { OnErr result (self.new ≡ self.old) }
    {
        self.items.push(item)?;
        Ok(())
    }

    /// Whether there are none.
    pub fn is_empty(&self) -> bool
        ensures { result ≡ steps_are_none self.now }
    {
        let items = self.items();
        items.is_empty()
    }

    /// How many steps there are.
    pub fn len(&self) -> usize
        ensures { result ≡ length (steps_list self.now) }
    {
        self.items.len()
    }

    /// The step of that index, from 0.
    pub fn get(&self, i: usize) -> Option<&StepAt>
        ensures item { option_copied result ≡ slice_get (steps_list self.now) i }
        ensures within { IsSome result ↔ (i < length (steps_list self.now)) }
    {
        self.items.get(i)
    }

    /// The items in their order.
    pub fn items(&self) -> &[StepAt]
        ensures { steps_of result.now ≡ self.now }
    {
        &self.items
    }
}

impl Bounds {
    /// An empty list.
    pub fn new(alloc: Global) -> Bounds
        ensures { result ≡ NoBounds }
    {
        Bounds {
            items: Vec::new(alloc),
        }
    }

    /// Adds one at the end. On a refusal the list is as it was.
    pub fn push(&mut self, item: Bound) -> Result<(), NoMemory>
        ensures pushed { OnOk result (self.new ≡ MoreBounds self.old item.names item.set) }
        ensures kept { OnErr result (self.new ≡ self.old) }
    {
        self.items.push(item)?;
        Ok(())
    }

    /// How many bounds there are.
    pub fn len(&self) -> usize
        ensures { result ≡ length (bounds_list self.now) }
    {
        self.items.len()
    }

    /// The bound of that index, from 0.
    pub fn get(&self, i: usize) -> Option<&Bound>
        ensures item { option_copied result ≡ slice_get (bounds_list self.now) i }
        ensures within { IsSome result ↔ (i < length (bounds_list self.now)) }
    {
        self.items.get(i)
    }

    /// The items in their order.
    pub fn items(&self) -> &[Bound]
        ensures { bounds_of result.now ≡ self.now }
    {
        &self.items
    }
}

impl Fields {
    /// An empty list.
    pub fn new(alloc: Global) -> Fields
        ensures { result ≡ NoFields }
    {
        Fields {
            items: Vec::new(alloc),
        }
    }

    /// Adds one at the end. On a refusal the list is as it was.
    pub fn push(&mut self, item: Field) -> Result<(), NoMemory>
        ensures pushed { OnOk result (self.new ≡ MoreFields self.old item.name item.value) }
        ensures kept { OnErr result (self.new ≡ self.old) }
    {
        self.items.push(item)?;
        Ok(())
    }

    /// How many fields there are.
    pub fn len(&self) -> usize
        ensures { result ≡ length (fields_list self.now) }
    {
        self.items.len()
    }

    /// The field of that index, from 0.
    pub fn get(&self, i: usize) -> Option<&Field>
        ensures item { option_copied result ≡ slice_get (fields_list self.now) i }
        ensures within { IsSome result ↔ (i < length (fields_list self.now)) }
    {
        self.items.get(i)
    }

    /// The items in their order.
    pub fn items(&self) -> &[Field]
        ensures { fields_of result.now ≡ self.now }
    {
        &self.items
    }
}

impl Changes {
    /// An empty list.
    pub fn new(alloc: Global) -> Changes
        ensures { result ≡ NoChanges }
    {
        Changes {
            items: Vec::new(alloc),
        }
    }

    /// Adds one at the end. On a refusal the list is as it was.
    pub fn push(&mut self, item: Change) -> Result<(), NoMemory>
        ensures pushed { OnOk result (self.new ≡ MoreChanges self.old item.path item.value) }
        ensures kept { OnErr result (self.new ≡ self.old) }
    {
        self.items.push(item)?;
        Ok(())
    }

    /// How many changes there are.
    pub fn len(&self) -> usize
        ensures { result ≡ length (changes_list self.now) }
    {
        self.items.len()
    }

    /// The change of that index, from 0.
    pub fn get(&self, i: usize) -> Option<&Change>
        ensures item { option_copied result ≡ slice_get (changes_list self.now) i }
        ensures within { IsSome result ↔ (i < length (changes_list self.now)) }
    {
        self.items.get(i)
    }

    /// The items in their order.
    pub fn items(&self) -> &[Change]
        ensures { changes_of result.now ≡ self.now }
    {
        &self.items
    }
}

impl Arms {
    /// An empty list.
    pub fn new(alloc: Global) -> Arms
        ensures { result ≡ NoArms }
    {
        Arms {
            items: Vec::new(alloc),
        }
    }

    /// Adds one at the end. On a refusal the list is as it was.
    pub fn push(&mut self, item: Arm) -> Result<(), NoMemory>
        ensures pushed { OnOk result (self.new ≡ MoreArms self.old item.test item.value) }
        ensures kept { OnErr result (self.new ≡ self.old) }
    {
        self.items.push(item)?;
        Ok(())
    }

    /// How many arms there are.
    pub fn len(&self) -> usize
        ensures { result ≡ length (arms_list self.now) }
    {
        self.items.len()
    }

    /// The arm of that index, from 0.
    pub fn get(&self, i: usize) -> Option<&Arm>
        ensures item { option_copied result ≡ slice_get (arms_list self.now) i }
        ensures within { IsSome result ↔ (i < length (arms_list self.now)) }
    {
        self.items.get(i)
    }

    /// The items in their order.
    pub fn items(&self) -> &[Arm]
        ensures { arms_of result.now ≡ self.now }
    {
        &self.items
    }
}

impl Definitions {
    /// An empty list.
    pub fn new(alloc: Global) -> Definitions
        ensures { result ≡ NoDefinitions }
    {
        Definitions {
            items: Vec::new(alloc),
        }
    }

    /// Adds one at the end. On a refusal the list is as it was.
    pub fn push(&mut self, item: Definition) -> Result<(), NoMemory>
        ensures pushed { OnOk result (self.new ≡ MoreDefinitions self.old item.name item.at item.params item.form item.body) }
        ensures kept { OnErr result (self.new ≡ self.old) }
    {
        self.items.push(item)?;
        Ok(())
    }

    /// How many definitions there are.
    pub fn len(&self) -> usize
        ensures { result ≡ length (definitions_list self.now) }
    {
        self.items.len()
    }

    /// The definition of that index, from 0.
    pub fn get(&self, i: usize) -> Option<&Definition>
        ensures item { option_copied result ≡ slice_get (definitions_list self.now) i }
        ensures within { IsSome result ↔ (i < length (definitions_list self.now)) }
    {
        self.items.get(i)
    }

    /// The items in their order.
    pub fn items(&self) -> &[Definition]
        ensures { definitions_of result.now ≡ self.now }
    {
        &self.items
    }
}
