//! The reason why a line is refused, in one sentence each.
ghost use Rattle.std.specs.Prelude.{◌≡◌, option_map};
ghost use Rattle.sentences.specs.Replies.{call_sentence, line_sentence};

/// Returns the reason why a call is refused with this error's name.
pub fn call_sentence(text: &[u8]) -> Option<&'static str>
    ensures { option_map (λ s. s.now) result ≡ call_sentence text.now }
{
    if text == b"ENOENT".as_slice() {
        return Some("no file has this path");
    }
    if text == b"ENOTDIR".as_slice() {
        return Some("a directory is needed here, and this is another kind of file");
    }
    if text == b"ELOOP".as_slice() {
        return Some("more than 40 symbolic links are on the way");
    }
    if text == b"ENAMETOOLONG".as_slice() {
        return Some("the path has more than 4,095 bytes, or a name in it more than 255");
    }
    if text == b"EINVAL".as_slice() {
        return Some(
            "the path has no slash in front, the file has another kind, the range is empty or past the end, or the image is not mounted",
        );
    }
    if text == b"EBADF".as_slice() {
        return Some("this descriptor is not open");
    }
    if text == b"EISDIR".as_slice() {
        return Some("it is a directory, which has no bytes");
    }
    if text == b"ENXIO".as_slice() {
        return Some("only directories and regular files can be opened");
    }
    if text == b"EMFILE".as_slice() {
        return Some("64 files are open, which is the most");
    }
    if text == b"ERANGE".as_slice() {
        return Some("the bytes do not follow one another in the image");
    }
    if text == b"ENODEV".as_slice() {
        return Some("no image has this number");
    }
    if text == b"EBUSY".as_slice() {
        return Some("the image or the directory is in use by a mount");
    }
    None
}

/// Returns the reason why a line is not a request, if the reply has this text.
pub fn line_sentence(text: &[u8]) -> Option<&'static str>
    ensures { option_map (λ s. s.now) result ≡ line_sentence text.now }
{
    if text == b"bad command".as_slice() {
        return Some("the first word is not a command");
    }
    if text == b"bad line".as_slice() {
        return Some("too few or too many words, an empty word, or a line of over 8,191 bytes");
    }
    if text == b"bad number".as_slice() {
        return Some(
            "a number is not decimal or not below 2^32, or a read asks for more than 4096 bytes",
        );
    }
    if text == b"bad session".as_slice() {
        return Some("the line does not begin with a session, 0 to 7, and a space");
    }
    None
}
