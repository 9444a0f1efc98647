//! The fields of a manifest's lines.

/// Returns a line of a text, by its number from 1 on, without the line feed at its end.
pub fn line_of(text: &[u8], line: u64) -> &[u8] {
    let Ok(number) = usize::try_from(line) else {
        return &[];
    };
    match text
        .split(|byte| *byte == b'\n')
        .nth(number.saturating_sub(1))
    {
        Some(line) => line,
        None => &[],
    }
}

/// Returns a field of a line, by its number from 0 on. It is empty if there is none.
pub fn field_of(line: &[u8], number: usize) -> &[u8] {
    line.split(|byte| *byte == b' ').nth(number).unwrap_or(&[])
}

/// Returns the number of fields of a line.
pub fn count_of(line: &[u8]) -> usize {
    let mut count = 0usize;
    for _ in line.split(|byte| *byte == b' ') {
        count = count.saturating_add(1);
    }
    count
}

/// Returns the number of fields of a line that begins with this word. The word counts.
pub fn wanted_count(word: &[u8]) -> Option<usize> {
    match word {
        b"dir" | b"pipe" | b"sock" => Some(5),
        b"file" => Some(7),
        b"slink" | b"same" => Some(6),
        b"nod" => Some(8),
        b"hard" => Some(3),
        b"volume" => Some(2),
        _ => None,
    }
}

/// Returns the fields of a line with this first word that are numbers: the index of each, and its
/// name in docs/MANIFEST.md.
pub fn numbers_of(word: &[u8]) -> &'static [(usize, &'static str)] {
    match word {
        b"hard" | b"volume" => &[],
        b"file" => &[(2, "MODE"), (3, "UID"), (4, "GID"), (5, "ALIGN")],
        b"nod" => &[
            (2, "MODE"),
            (3, "UID"),
            (4, "GID"),
            (6, "MAJOR"),
            (7, "MINOR"),
        ],
        _ => &[(2, "MODE"), (3, "UID"), (4, "GID")],
    }
}

/// Returns the directory that a path is in.
pub fn directory_of(path: &[u8]) -> &[u8] {
    match path.iter().rposition(|byte| *byte == b'/') {
        Some(end) => path.get(..end).unwrap_or(path),
        None => path,
    }
}
