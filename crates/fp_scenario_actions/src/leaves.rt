ghost use Rattle.std.specs.Prelude.{◌≡◌, IfOk};
ghost use Rattle.serde_json.specs.View.{number_view};
ghost use Rattle.fp_sound_types.specs.Shapes.{meant};
ghost use Rattle.fp_scenario_actions.specs.Made.{number_made, truth_made, text_made, null_made};

use crate::wanted::constant_named;
use fp_base::{NoMemory, Text, Value};
use fp_sound_types::Shape;
use fp_types::number_within;
use serde_json::Number;
use std::alloc::Global;

pub fn of_number(shape: Shape<'_>, number: &Number) -> Option<Value>
    ensures { result ≡ number_made (meant shape.entry) (number_view number.now) }
{
    match shape {
        Shape::Integer { low, high } => match number.as_i128() {
            Some(number) => number_within(number, low, high),
            None => None,
        },
        _ => None,
    }
}

pub fn of_truth(shape: Shape<'_>, truth: bool) -> Option<Value>
    ensures { result ≡ truth_made (meant shape.entry) truth }
{
    match shape {
        Shape::Truth => Some(Value::Bool(truth)),
        _ => None,
    }
}

pub fn of_text(alloc: Global, shape: Shape<'_>, text: &str) -> Result<Option<Value>, NoMemory>
    ensures { IfOk result (λ made. made ≡ text_made (meant shape.entry) text.now) }
{
    match shape {
        Shape::Words => Ok(Some(Value::Text(Text::from_str(alloc, text)?))),
        Shape::Constants(constants) => match constant_named(constants, text) {
            Some(constant) => Ok(Some(constant.value.copy(alloc)?)),
            None => Ok(None),
        },
        _ => Ok(None),
    }
}

pub fn of_null(shape: Shape<'_>) -> Option<Value>
    ensures { result ≡ null_made (meant shape.entry) }
{
    match shape {
        Shape::Opaque => Some(Value::Opaque),
        _ => None,
    }
}
