// The built-in types by name: u16, i16, bool and String.
ghost use Rattle.std.specs.Prelude.{◌≡◌, [], ◌≤◌, length};
ghost use Rattle.types.specs.Table.{Decides};
ghost use Rattle.names.specs.Names.{name_count};
ghost use Rattle.layout.specs.Layout.{max_bytes};
ghost use Rattle.listing.specs.Names.{NamesListed};
ghost use Rattle.descriptions.specs.declared.Piece.TheVariants.{BuiltIn};
ghost use Rattle.error_messages.specs.Description.{inputs, text_of, ExistsAs};

use display::Source;
use names::same_bytes;

// Whether a name is that of a built-in type.
pub(crate) fn is_built_in(source: &Source<'_, '_>, names: u32, name: u32) -> bool
    requires s_len_bound { (length source.now.s.now ≤ max_bytes) × NamesListed source.now.s.now source.now.places.now }
    requires names_value { names ≡ name_count source.now.s.now }
    ensures { Decides (ExistsAs (inputs source.now.s.now source.now.built_in.now [] 0) BuiltIn name) result }
{
    if names <= name {
        return false;
    }
    let text = source.name_text(name);
    same_bytes(text, b"u16")
        || same_bytes(text, b"i16")
        || same_bytes(text, b"bool")
        || same_bytes(text, b"String")
}

// The text of the built-in type of a name: the name, but for String the text that is lent.
pub(crate) fn built_in_text<'a>(source: &Source<'a, '_>, name: u32) -> &'a [u8]
    requires s_len_bound { (length source.now.s.now ≤ max_bytes) × NamesListed source.now.s.now source.now.places.now }
    requires exists_as { ExistsAs (inputs source.now.s.now source.now.built_in.now [] 0) BuiltIn name }
    ensures { result.now ≡ text_of (inputs source.now.s.now source.now.built_in.now [] 0) BuiltIn 0 name }
{
    let text = source.name_text(name);
    if same_bytes(text, b"String") {
        return source.built_in;
    }
    text
}
