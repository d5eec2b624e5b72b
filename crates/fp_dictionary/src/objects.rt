ghost use Rattle.std.specs.Prelude.{◌≡◌, ◌∷◌, [], OnOk};
ghost use Rattle.serde_json.specs.Data.{object, no_members, string};
ghost use Rattle.serde_json.specs.View.{view};
ghost use Rattle.fp_dictionary.specs.Objects.{held, with_entries, natural, annotation};

use fp_base::{NoMemory, Text};
use serde_json::{Map, Value as Json};
use std::alloc::Global;

/// An object into which members are put one by one.
#[derive(Drop)]
pub struct Object {
    map: Map<String, Json>,
}

impl Object {
    /// Takes no memory.
    pub fn new(alloc: Global) -> Object
        ensures { held result ≡ no_members }
    {
        Object {
            map: Map::new(alloc),
        }
    }

    pub fn put(&mut self, alloc: Global, key: &str, value: Json) -> Result<(), NoMemory>
        ensures { OnOk result (held self.new ≡ with_entries ((key.now, view value) ∷ []) (held self.old)) }
    {
        serde_json::put(&mut self.map, alloc, key, value)?;
        Ok(())
    }

    pub fn put_text(&mut self, alloc: Global, key: &str, text: &str) -> Result<(), NoMemory>
        ensures { OnOk result (held self.new ≡ with_entries ((key.now, string text.now) ∷ []) (held self.old)) }
    {
        let value = Json::try_from_str(alloc, text)?;
        self.put(alloc, key, value)
    }

    pub fn put_natural(&mut self, alloc: Global, key: &str, number: u64) -> Result<(), NoMemory>
        ensures { OnOk result (held self.new ≡ with_entries ((key.now, natural number) ∷ []) (held self.old)) }
    {
        self.put(alloc, key, Json::from(number))
    }

    pub fn put_annotation(&mut self, alloc: Global, note: &Text) -> Result<(), NoMemory>
        ensures { OnOk result (held self.new ≡ with_entries (annotation note.now) (held self.old)) }
    {
        if note.len() == 0 {
            return Ok(());
        }
        self.put_text(alloc, "annotation", note.as_str())
    }

    pub fn into_value(self) -> Json
        ensures { view result ≡ object (held self) }
    {
        let Object { map } = self;
        Json::Object(map)
    }
}
