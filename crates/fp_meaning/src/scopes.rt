ghost use Rattle.std.specs.Prelude.{◌≡◌, ◌++◌, ◌∷◌, [], IfOk};
ghost use Rattle.fp_tree.specs.declared.name.Name.{Name};

use fp_base::{NoMemory, Row, Text};
use fp_tree::Name;
use std::alloc::Global;
use std::marker::Model;
use std::rc::Rc;

/// A copy of a scope.
pub fn copy_scope(alloc: Global, scope: &Row<Text>) -> Result<Row<Text>, NoMemory>
    ensures { IfOk result (λ row. row ≡ scope.now) }
{
    let mut row = Row::new(alloc);
    for text in scope.as_slice() {
        row.push(text.copy(alloc)?)?;
    }
    Ok(row)
}

/// The scope behind a name in a scope.
pub fn behind(alloc: Global, scope: &Row<Text>, name: &Name) -> Result<Row<Text>, NoMemory>
    ensures { IfOk result (λ row. row ≡ scope.now ++ name.now.text ∷ []) }
{
    let mut row = copy_scope(alloc, scope)?;
    row.push(name.text.copy(alloc)?)?;
    Ok(row)
}

/// The names of the modules round a node, from the outside. All that stand in one module share them.
#[derive(Drop)]
pub struct Scope {
    names: Rc<Row<Text>, Global>,
}

impl Model for Scope {
    ghost use Rattle.fp_meaning.specs.Sites.{Path};

    ghost Value = { Path };

    ghost view = { λ scope. scope.names.value };
}

impl Scope {
    pub fn of(alloc: Global, names: Row<Text>) -> Result<Scope, NoMemory>
        ensures { IfOk result (λ scope. scope ≡ names) }
    {
        let names = Rc::new(alloc, names)?;
        Ok(Scope { names })
    }

    /// The scope behind a name in this one.
    pub fn behind(&self, alloc: Global, name: &Name) -> Result<Scope, NoMemory>
        ensures { IfOk result (λ scope. scope ≡ self.now ++ name.now.text ∷ []) }
    {
        let names = behind(alloc, self.names(), name)?;
        Scope::of(alloc, names)
    }

    /// The same scope once more, with no copy of its names.
    pub fn share(&self) -> Result<Scope, NoMemory>
        ensures { IfOk result (λ scope. scope ≡ self.now) }
    {
        let names = self.names.clone()?;
        Ok(Scope { names })
    }

    pub fn names(&self) -> &Row<Text>
        ensures { result.now ≡ self.now }
    {
        self.names.as_ref()
    }
}
