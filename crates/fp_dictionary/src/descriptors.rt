ghost use Rattle.std.specs.Prelude.{◌≡◌, IfOk, unwrap_or, option_map, ℕ, suc};
ghost use Rattle.serde_json.specs.View.{view};
ghost use Rattle.fp_tables.specs.Machines.{target_by};
ghost use Rattle.fp_dictionary.specs.Types.{descriptor, integer, sized, named, type_name, underlying};

use fp_base::NoMemory;
use fp_tables::{Form, Kind, TypeDef, form_at, target};
use serde_json::{Value as Json, json};
use std::alloc::Global;

/// A type, as it is used.
pub fn descriptor(alloc: Global, types: &[TypeDef], kind: Kind) -> Result<Json, NoMemory>
    ensures { IfOk result (λ json. view json ≡ descriptor types.now kind) }
{
    match kind {
        Kind::U8 => integer(alloc, "U8", false, 8),
        Kind::U16 => integer(alloc, "U16", false, 16),
        Kind::U32 => integer(alloc, "U32", false, 32),
        Kind::U64 => integer(alloc, "U64", false, 64),
        Kind::I8 => integer(alloc, "I8", true, 8),
        Kind::I16 => integer(alloc, "I16", true, 16),
        Kind::I32 => integer(alloc, "I32", true, 32),
        Kind::I64 => integer(alloc, "I64", true, 64),
        Kind::Bool => sized(alloc, "bool", 8),
        Kind::Str { size } => sized(alloc, "string", size),
        Kind::Named(at) => named(alloc, type_name(types, at)),
    }
}

fn integer(alloc: Global, name: &str, signed: bool, bits: u32) -> Result<Json, NoMemory>
    ensures { IfOk result (λ json. view json ≡ integer name.now signed bits) }
{
    let json = json!(in alloc; {"name": name, "kind": "integer", "size": bits, "signed": signed})?;
    Ok(json)
}

/// A truth value or a string, by its size.
fn sized(alloc: Global, name: &str, size: u32) -> Result<Json, NoMemory>
    ensures { IfOk result (λ json. view json ≡ sized name.now size) }
{
    let json = json!(in alloc; {"name": name, "kind": name, "size": size})?;
    Ok(json)
}

fn named(alloc: Global, name: &str) -> Result<Json, NoMemory>
    ensures { IfOk result (λ json. view json ≡ named name.now) }
{
    let json = json!(in alloc; {"name": name, "kind": "qualifiedIdentifier"})?;
    Ok(json)
}

fn type_name(types: &[TypeDef], at: u32) -> &str
    ensures { result.now ≡ type_name types.now at }
{
    match types.get(at as usize) {
        Some(definition) => definition.name.as_str(),
        None => "",
    }
}

/// What an alias stands for.
fn alias(types: &[TypeDef], kind: Kind) -> Option<Kind>
    ensures { (n : ℕ) → target_by types.now (suc n) kind ≡ unwrap_or (option_map (target_by types.now n) result) kind }
{
    match kind {
        Kind::Named(at) => match form_at(types, at) {
            Some(form) => match form {
                Form::Alias(target) => Some(*target),
                _ => None,
            },
            None => None,
        },
        _ => None,
    }
}

/// The type behind aliases.
pub(crate) fn underlying(types: &[TypeDef], kind: Kind) -> Kind
    ensures { result ≡ underlying types.now kind }
{
    match alias(types, kind) {
        Some(next) => target(types, next),
        None => kind,
    }
}
