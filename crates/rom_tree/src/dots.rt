//! `.` and `..`, the names of a directory itself and of its parent.
ghost use Rattle.std.specs.Prelude.{◌≡◌, ◌↔◌, IsTrue};
ghost use Rattle.std.specs.Str.{bytes_eq};
ghost use Rattle.rom_tree.specs.Dots.{dot, dot_dot, is_dots};

/// Returns whether a name is `.`.
pub fn is_dot(name: &[u8]) -> bool
    ensures test { result ≡ bytes_eq name.now dot }
    ensures dot { IsTrue result ↔ (name.now ≡ dot) }
{
    name == b".".as_slice()
}

/// Returns whether a name is `..`.
pub fn is_dot_dot(name: &[u8]) -> bool
    ensures test { result ≡ bytes_eq name.now dot_dot }
    ensures dot_dot { IsTrue result ↔ (name.now ≡ dot_dot) }
{
    name == b"..".as_slice()
}

/// Returns whether a name is `.` or `..`.
pub fn is_dots(name: &[u8]) -> bool
    ensures { result ≡ is_dots name.now }
{
    match name {
        [b'.'] | [b'.', b'.'] => true,
        _ => false,
    }
}
