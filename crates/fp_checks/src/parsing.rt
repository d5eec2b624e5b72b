ghost use Rattle.std.specs.Prelude.{◌<◌, ◌^◌, IfOk, length};

use fp_base::{NoMemory, Row};
use fp_lexer::{Token, lex};
use fp_parse_components::{parse_component, parse_interface};
use fp_parse_defs::{parse_def, parse_expr};
use fp_parse_states::parse_machine;
use fp_parse_topologies::{parse_instance, parse_topology};
use fp_tree::{Def, Form};
use std::alloc::Global;
use std::test::Fail;

// More than any text here has.
const MOST_TOKENS: usize = 1_000;

/// The tokens of a text that has some.
pub fn tokens_of(alloc: Global, text: &str) -> Result<Row<Token>, NoMemory>
    ensures some { IfOk result (λ tokens. 0 < length tokens) }
    ensures short { IfOk result (λ tokens. length tokens < 2 ^ 32) }
{
    let Ok(tokens) = lex(alloc, 0, text.as_bytes()) else {
        return Err(NoMemory);
    };
    if tokens.len() == 0 || tokens.len() > MOST_TOKENS {
        return Err(NoMemory);
    }
    Ok(tokens)
}

// Whether a call reads what has this name, and comes to this token.
macro_rules! reads {
    ($parse:ident, $alloc:expr, $text:expr, $name:expr, $end:expr) => {{
        let tokens = tokens_of($alloc, $text)?;
        match $parse($alloc, &tokens, 0) {
            Ok((node, end)) => node.name.text.as_str() == $name && end == $end,
            Err(_) => false,
        }
    }};
}

#[test]
fn a_definition_is_read(rt: HostRuntime) -> Result<(), Fail> {
    let tokens = tokens_of(rt.alloc(), "constant a = 1 + 2 }")?;
    match parse_def(rt.alloc(), &tokens, 0) {
        Ok((definition, end)) => {
            let named = match &definition {
                Def::Constant(constant) => constant.name.text.as_str() == "a",
                _ => false,
            };
            assert!(rt; named && end == 6);
        }
        Err(_) => assert!(rt; false, "a constant"),
    }
    Ok(())
}

#[test]
fn an_expression_is_read(rt: HostRuntime) -> Result<(), Fail> {
    let tokens = tokens_of(rt.alloc(), "= 1 + 2 }")?;
    match parse_expr(rt.alloc(), &tokens, 1) {
        Ok((expression, end)) => {
            assert!(rt; matches!(expression.form, Form::Binary { .. }) && end == 4);
        }
        Err(_) => assert!(rt; false, "a sum"),
    }
    Ok(())
}

#[test]
fn components_are_read(rt: HostRuntime) -> Result<(), Fail> {
    let component = "passive component C { sync input port i: P } }";
    assert!(rt; reads!(parse_component, rt.alloc(), component, "C", 11));
    let interface = "interface I { output port o: P } }";
    assert!(rt; reads!(parse_interface, rt.alloc(), interface, "I", 9));
    Ok(())
}

#[test]
fn machines_are_read(rt: HostRuntime) -> Result<(), Fail> {
    let machine = "state machine M { signal s } }";
    assert!(rt; reads!(parse_machine, rt.alloc(), machine, "M", 7));
    Ok(())
}

#[test]
fn topologies_are_read(rt: HostRuntime) -> Result<(), Fail> {
    let instance = "instance q: Q base id 1 }";
    assert!(rt; reads!(parse_instance, rt.alloc(), instance, "q", 7));
    let topology = "topology T { instance q } }";
    assert!(rt; reads!(parse_topology, rt.alloc(), topology, "T", 6));
    Ok(())
}
