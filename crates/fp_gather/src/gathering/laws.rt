ghost use Rattle.std.specs.Prelude.{◌≡◌, ◌<◌, ℕ, List, length, Contains, Option, Some};
ghost use Rattle.fp_base.specs.declared.place.Place.{Place};
ghost use Rattle.fp_base.specs.declared.refusal.Refusal.{Refusal};
ghost use Rattle.fp_outside.specs.declared.files.HeldFile.{HeldFile};
ghost use Rattle.fp_tree.specs.declared.member.Member.{Member};
ghost use Rattle.fp_meaning.specs.declared.item.Item.{Item};
ghost use Rattle.fp_meaning.specs.Layout.{items};
ghost use Rattle.fp_places.specs.Places.{places_of};
ghost use Rattle.fp_gather.specs.gathering.Gathered.{AnyBroken, StandsAmong, names_read, source_of};
ghost use Rattle.fp_gather.specs.gathering.Names.{IsNamed};
ghost use Rattle.fp_gather.specs.gathering.Walks.{Walked, Outcome, NoReadFault, WalksFiles, Went, nothing_read};

use fp_parse_parts::{one_break, one_list};
use fp_places::{
    names_are_written, part_names_are_written, part_places_begin_tokens, parts_stand_at_tokens,
    places_begin_tokens, stand_at_tokens, topology_names_are_written, topology_places_begin_tokens,
    topology_stands_at_tokens,
};

/// Files that tell what they hold are read in one way, where no read fails.
pub fn one_reading()
    ensures { (told : Option (List HeldFile)) (held : List HeldFile) (names : List (List ℕ)) (before : Walked) (one other : Outcome (List (List Member))) → told ≡ Some held → WalksFiles told names before one → WalksFiles told names before other → NoReadFault one → NoReadFault other → one ≡ other }
{
    one_list();
    one_break();
}

/// A rule that is broken in files which were read, or in their source, is broken in one of these files.
pub fn in_files_read()
    ensures { (told : Option (List HeldFile)) (names : List (List ℕ)) (walked : Walked) (units : List (List Member)) (f : Refusal) → WalksFiles told names nothing_read (Went walked units) → AnyBroken walked (source_of walked units) f → StandsAmong (names_read walked) f }
{
    stand_at_tokens();
    parts_stand_at_tokens();
    topology_stands_at_tokens();
    places_begin_tokens();
    part_places_begin_tokens();
    topology_places_begin_tokens();
}

/// Each place of what files give that were read is one in one of these files.
pub fn places_in_files()
    ensures { (told : Option (List HeldFile)) (names : List (List ℕ)) (walked : Walked) (units : List (List Member)) (i : Item) (place : Place) → WalksFiles told names nothing_read (Went walked units) → Contains (items (source_of walked units)) i → Contains (places_of i) place → place.file < length (names_read walked) }
{
    stand_at_tokens();
    parts_stand_at_tokens();
    topology_stands_at_tokens();
    places_begin_tokens();
    part_places_begin_tokens();
    topology_places_begin_tokens();
}

/// What files define that were read has names of the language, and so have the members of structs.
pub fn names_are_names()
    ensures { (told : Option (List HeldFile)) (names : List (List ℕ)) (walked : Walked) (units : List (List Member)) (i : Item) → WalksFiles told names nothing_read (Went walked units) → Contains (items (source_of walked units)) i → IsNamed i }
{
    names_are_written();
    part_names_are_written();
    topology_names_are_written();
}
