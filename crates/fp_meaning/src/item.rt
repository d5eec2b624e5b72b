ghost use Rattle.std.specs.Prelude.{◌≡◌, IfOk};
ghost use Rattle.std.specs.Option.{option_copied};
ghost use Rattle.fp_meaning.specs.Names.{model_group, model_name};
ghost use Rattle.fp_meaning.specs.Read.{declared_there, read};
ghost use Rattle.fp_meaning.specs.Sites.{entry, is_implied, naming, placed, port_naming, site, value_in};

use crate::group::Group;
use crate::scopes::Scope;
use fp_base::{NoMemory, Place, Row, Text};
use fp_tree::{
    Component, Def, Enum, EnumConst, Expr, Instance, Interface, Machine, Name, PortUse, Qual,
    Topology,
};
use std::marker::Model;

/// A definition in its scope.
#[derive(Drop)]
pub struct Sited<'a> {
    scope: Scope,
    definition: &'a Def,
}

impl<'a> Model for Sited<'a> {
    ghost use Rattle.std.specs.Coded.{codes};
    ghost use Rattle.fp_tree.specs.contracts.definition.Def as written;
    ghost use Rattle.fp_meaning.specs.Sites.{Site};

    ghost Value = { Site };

    ghost coded = { Prim.hlevel (codes, written.the_row.coded) };

    ghost view = { λ s. record { scope = s.scope; definition = s.definition.now } };
}

impl<'a> Sited<'a> {
    pub fn of(scope: &Scope, definition: &'a Def) -> Result<Sited<'a>, NoMemory>
        ensures { IfOk result (λ sited. sited ≡ site scope.now definition.now) }
    {
        let scope = scope.share()?;
        Ok(Sited { scope, definition })
    }

    pub fn scope(&self) -> &Row<Text>
        ensures { result.now ≡ self.now.scope }
    {
        self.scope.names()
    }

    pub fn definition(&self) -> &'a Def
        ensures { result.now ≡ self.now.definition }
    {
        self.definition
    }

    /// The expression that gives the definition its value.
    pub fn value(&self) -> Option<&'a Expr>
        ensures { option_copied result ≡ value_in self.now.definition }
    {
        match self.definition {
            Def::Constant(constant) => Some(&constant.value),
            Def::Abstract(_) => None,
            Def::Alias(_) => None,
            Def::Array(_) => None,
            Def::Struct(_) => None,
            Def::Enum(_) => None,
            Def::Port(_) => None,
        }
    }
}

/// A constant of an enumeration, in the scope of the enumeration.
#[derive(Drop)]
pub struct Listed<'a> {
    scope: Scope,
    enumeration: &'a Enum,
    implied: bool,
    position: usize,
    constant: &'a EnumConst,
}

impl<'a> Model for Listed<'a> {
    ghost use Rattle.std.specs.Coded.{codes};
    ghost use Rattle.fp_tree.specs.contracts.definition.Enum as whole;
    ghost use Rattle.fp_tree.specs.contracts.part.EnumConst as part;
    ghost use Rattle.std.specs.Prelude.{◌≡◌};
    ghost use Rattle.fp_meaning.specs.Sites.{Entry, is_implied};

    ghost Value = { Entry };

    ghost coded = { Prim.hlevel (codes, whole.the_row.coded, part.the_row.coded) };

    ghost view = { λ l. record { scope = l.scope; enumeration = l.enumeration.now; position = l.position; constant = l.constant.now } };

    ghost invariant = { λ l. l.implied ≡ is_implied l.enumeration.now };
}

impl<'a> Listed<'a> {
    pub fn of(
        scope: &Scope,
        enumeration: &'a Enum,
        implied: bool,
        position: usize,
        constant: &'a EnumConst,
    ) -> Result<Listed<'a>, NoMemory>
        requires { implied ≡ is_implied enumeration.now }
        ensures { IfOk result (λ listed. listed ≡ entry scope.now enumeration.now position constant.now) }
    {
        let scope = scope.share()?;
        Ok(Listed {
            scope,
            enumeration,
            implied,
            position,
            constant,
        })
    }

    pub fn scope(&self) -> &Row<Text>
        ensures { result.now ≡ self.now.scope }
    {
        self.scope.names()
    }

    pub fn enumeration(&self) -> &'a Enum
        ensures { result.now ≡ self.now.enumeration }
    {
        self.enumeration
    }

    /// Whether no constant of the enumeration has a value written.
    pub fn implied(&self) -> bool
        ensures { result ≡ is_implied self.now.enumeration }
    {
        self.implied
    }

    pub fn position(&self) -> usize
        ensures { result ≡ self.now.position }
    {
        self.position
    }

    pub fn constant(&self) -> &'a EnumConst
        ensures { result.now ≡ self.now.constant }
    {
        self.constant
    }

    /// The value that is written there.
    pub fn value(&self) -> Option<&'a Expr>
        ensures { option_copied result ≡ self.now.constant.value }
    {
        self.constant.value.as_ref()
    }
}

/// A definition beside those of constants, types and ports.
#[derive(Clone, Copy)]
pub enum ModelDef<'a> {
    Machine(&'a Machine),
    Component(&'a Component),
    Interface(&'a Interface),
    Instance(&'a Instance),
    Topology(&'a Topology),
}

/// Such a definition in its scope.
#[derive(Drop)]
pub struct Declared<'a> {
    scope: Scope,
    definition: ModelDef<'a>,
}

impl<'a> Model for Declared<'a> {
    ghost use Rattle.std.specs.Coded.{codes};
    ghost use Rattle.fp_tree.specs.contracts.component.Component as components;
    ghost use Rattle.fp_tree.specs.contracts.component.Interface as interfaces;
    ghost use Rattle.fp_tree.specs.contracts.instance.Instance as instances;
    ghost use Rattle.fp_tree.specs.contracts.machine.Machine as machines;
    ghost use Rattle.fp_tree.specs.contracts.topology.Topology as topologies;
    ghost use Rattle.fp_meaning.specs.Read.{read};
    ghost use Rattle.fp_meaning.specs.Sites.{Declaration};

    ghost Value = { Declaration };

    ghost coded = { Prim.hlevel (codes, machines.the_row.coded, components.the_row.coded, interfaces.the_row.coded, instances.the_row.coded, topologies.the_row.coded) };

    ghost view = { λ d. record { scope = d.scope; definition = read d.definition } };
}

impl<'a> Declared<'a> {
    pub fn of(scope: &Scope, definition: ModelDef<'a>) -> Result<Declared<'a>, NoMemory>
        ensures { IfOk result (λ declared. declared ≡ declared_there scope.now definition.entry) }
    {
        let scope = scope.share()?;
        Ok(Declared { scope, definition })
    }

    pub fn scope(&self) -> &Row<Text>
        ensures { result.now ≡ self.now.scope }
    {
        self.scope.names()
    }

    pub fn definition(&self) -> ModelDef<'a>
        ensures { read result ≡ self.now.definition }
    {
        self.definition
    }

    /// The group in which its name is defined.
    pub fn group(&self) -> Group
        ensures { result ≡ model_group self.now.definition }
    {
        match self.definition {
            ModelDef::Machine(_) => Group::Machine,
            ModelDef::Component(_) => Group::Component,
            ModelDef::Interface(_) => Group::Interface,
            ModelDef::Instance(_) => Group::Instance,
            ModelDef::Topology(_) => Group::Topology,
        }
    }

    pub fn name(&self) -> &'a Name
        ensures { result.now ≡ model_name self.now.definition }
    {
        match self.definition {
            ModelDef::Machine(machine) => &machine.name,
            ModelDef::Component(component) => &component.name,
            ModelDef::Interface(interface) => &interface.name,
            ModelDef::Instance(instance) => &instance.name,
            ModelDef::Topology(topology) => &topology.name,
        }
    }
}

/// The use of a name that stands in no expression, with the group in which it is looked up.
#[derive(Drop)]
pub struct Named<'a> {
    group: Group,
    scope: Scope,
    names: &'a [Name],
    place: Place,
}

impl<'a> Model for Named<'a> {
    ghost use Rattle.std.specs.Coded.{codes};
    ghost use Rattle.fp_base.specs.contracts.place.Place as places;
    ghost use Rattle.fp_tree.specs.contracts.name.Name as single;
    ghost use Rattle.fp_meaning.specs.contracts.group.Group as groups;
    ghost use Rattle.fp_meaning.specs.Sites.{Naming};

    ghost Value = { Naming };

    ghost coded = { Prim.hlevel (codes, groups.the_row.coded, single.the_row.coded, places.the_row.coded) };

    ghost view = { λ n. record { group = n.group; scope = n.scope; names = n.names.now; place = n.place } };
}

impl<'a> Named<'a> {
    pub fn of(group: Group, scope: &Scope, name: &'a Qual) -> Result<Named<'a>, NoMemory>
        ensures { IfOk result (λ named. named ≡ naming group scope.now name.now) }
    {
        let scope = scope.share()?;
        Ok(Named {
            group,
            scope,
            names: name.names.as_slice(),
            place: name.at.first,
        })
    }

    /// The instance that the use of a port names.
    pub fn of_port_use(scope: &Scope, port: &'a PortUse) -> Result<Named<'a>, NoMemory>
        ensures { IfOk result (λ named. named ≡ port_naming scope.now port.now) }
    {
        let scope = scope.share()?;
        let names = port.of.names.as_slice();
        Ok(Named {
            group: Group::Instance,
            scope,
            names: &names[..names.len().saturating_sub(1)],
            place: port.at.first,
        })
    }

    pub fn group(&self) -> Group
        ensures { result ≡ self.now.group }
    {
        self.group
    }

    pub fn scope(&self) -> &Row<Text>
        ensures { result.now ≡ self.now.scope }
    {
        self.scope.names()
    }

    pub fn names(&self) -> &'a [Name]
        ensures { result.now ≡ self.now.names }
    {
        self.names
    }

    pub fn place(&self) -> Place
        ensures { result ≡ self.now.place }
    {
        self.place
    }
}

/// A whole expression in its scope.
#[derive(Drop)]
pub struct Located<'a> {
    scope: Scope,
    expression: &'a Expr,
}

impl<'a> Model for Located<'a> {
    ghost use Rattle.std.specs.Coded.{codes};
    ghost use Rattle.fp_tree.specs.contracts.expression.Expr as written;
    ghost use Rattle.fp_meaning.specs.Sites.{Placed};

    ghost Value = { Placed };

    ghost coded = { Prim.hlevel (codes, written.the_row.coded) };

    ghost view = { λ l. record { scope = l.scope; expression = l.expression.now } };
}

impl<'a> Located<'a> {
    pub fn of(scope: &Scope, expression: &'a Expr) -> Result<Located<'a>, NoMemory>
        ensures { IfOk result (λ located. located ≡ placed scope.now expression.now) }
    {
        let scope = scope.share()?;
        Ok(Located { scope, expression })
    }

    pub fn scope(&self) -> &Row<Text>
        ensures { result.now ≡ self.now.scope }
    {
        self.scope.names()
    }

    pub fn expression(&self) -> &'a Expr
        ensures { result.now ≡ self.now.expression }
    {
        self.expression
    }
}

/// An item of a source that is laid out flat. At a name or an expression `since` says how many definitions stand between it and the
/// definition that has it.
#[derive(Drop)]
pub enum Item<'a> {
    /// A definition of a constant, a type or a port; the expression of a constant is its own.
    Defined(Sited<'a>),
    /// A constant of an enumeration, with the expression that may be written there.
    Enumerated(Listed<'a>),
    /// A definition of any other kind.
    Declared(Declared<'a>),
    Used {
        since: usize,
        name: Named<'a>,
    },
    Written {
        since: usize,
        expression: Located<'a>,
    },
}
