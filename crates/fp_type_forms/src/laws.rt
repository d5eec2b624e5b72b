ghost use Rattle.std.specs.Prelude.{◌≡◌, List};
ghost use Rattle.fp_tables.specs.declared.kind.Form.{Form};
ghost use Rattle.fp_tree.specs.declared.definition.Def.{Def};
ghost use Rattle.fp_tree.specs.declared.source.Source.{Source};
ghost use Rattle.fp_meaning.specs.Names.{Path};
ghost use Rattle.fp_type_sizes.specs.declared.written.WrittenType.{WrittenType};
ghost use Rattle.fp_type_forms.specs.Written.{AreWritten, FormIs};

/// A type definition in a scope has one form at most.
pub fn one_form()
    ensures { (source : Source) (scope : Path) (d : Def) (f g : Form) → FormIs source scope d f → FormIs source scope d g → f ≡ g }
{}

/// What is written of the types of a source is one list.
pub fn one_written()
    ensures { (source : Source) (vs ws : List WrittenType) → AreWritten source vs → AreWritten source ws → vs ≡ ws }
{}
