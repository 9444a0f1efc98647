//! Laws about the names and the values of a map, as functions without code.
ghost use Rattle.std.specs.List.{All};
ghost use Rattle.std.specs.Prelude.{ℕ, ◌≡◌, Bool, List};
ghost use Rattle.map_forms.specs.Header.{map_text};
ghost use Rattle.map_forms.specs.Names.{HasBytes, Macro, macro_name};
ghost use Rattle.map_forms.specs.Values.{AreValues};
ghost use Rattle.map_forms.specs.Xml.{IsPlainByte, xml_text};
ghost use Rattle.map_forms.specs.declared.form.Form.{Form};
ghost use Rattle.rom_tree.specs.Tree.{Node};

/// States that different macros of a header have different names, for paths of bytes. The symbols
/// of a script have the names of the macros.
pub fn names_are_unique()
    ensures { (prefix : List ℕ) (a b : Macro) → HasBytes a → HasBytes b
        → macro_name prefix a ≡ macro_name prefix b → a ≡ b }
{}

/// States what a map of either form says of the files of a tree, for every choice. The length of a
/// file is the number of its bytes. A file has an address exactly if its bytes follow one another
/// in the image, and then it is the base address plus the offset of its first byte, modulo 2^64.
pub fn values_are_places()
    ensures { (f : Form) (chosen : List ℕ → Bool) (prefix : List ℕ) (base size : ℕ) (t : Node)
        → AreValues f chosen prefix base size t (map_text f chosen prefix base size t) }
{}

/// States that each byte of a text that was put is a visible ASCII character or a space, and is
/// neither `<` nor a quote, whatever the text was.
pub fn is_text()
    ensures { (text : List ℕ) → All IsPlainByte (xml_text text) }
{}
