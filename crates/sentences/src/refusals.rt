//! The reasons why this program refuses a file, in one sentence each.
ghost use Rattle.std.specs.Prelude.{◌≡◌};
ghost use Rattle.sentences.specs.Refusals.{reason_sentence};

use system_files::Reason;

/// Returns why a file is refused, in words.
pub fn reason_sentence(reason: Reason) -> &'static str
    ensures { result.now ≡ reason_sentence reason }
{
    match reason {
        Reason::NotRegular => "it is not a regular file",
        Reason::NotADirectory => "it is not a directory",
        Reason::SourceLink => "it is a symbolic link, and --no-follow refuses these",
        Reason::SourceChanged => "it changed while it was read",
        Reason::SourceUnread => {
            "it could not be read, or its length is not the length that the system reported"
        }
        Reason::ManifestTooLong => "a manifest has at most 2^30 bytes",
        Reason::LineTooLong => "a line of it has more than 2^20 bytes, so it is no manifest",
        Reason::NoMaxSize => {
            "ROMTOOL_MAX_SIZE is no number of bytes, such as 4096, 64K, 2M, 1G or 0x10000"
        }
        Reason::Whiteout => {
            "it is a whiteout of overlayfs (device 0:0); scan the mounted overlay instead"
        }
        Reason::NoKind => "it is of a kind that no manifest has",
        Reason::ForeignName => "a name in it is not UTF-8; ls -b shows it",
        Reason::ForeignLink => "the text of the link is not UTF-8; readlink shows it",
        Reason::ScanChanged => "it changed while it was scanned",
        Reason::Faked => {
            "fakeroot or pseudo is in the environment and does not reach this program (it is static, or LD_PRELOAD is lost), so owners and devices would be wrong"
        }
        Reason::Replaced => "another file took its name meanwhile",
        Reason::TooManyLinks => "more than 40 symbolic links follow one another",
        Reason::LinkToOutput => {
            "another user made a link to it, or may replace one: name the file itself"
        }
        Reason::OutputOfAnother => {
            "another user made it, in a directory like /tmp; remove it first"
        }
        Reason::HundredParts => {
            "a hundred parts, .NAME.romtool-0.part and so on, are beside it; remove old ones"
        }
        Reason::Mounted => {
            "a file system on it, or on a partition of it, is mounted: unmount it"
        }
        Reason::Swapped => "it, or a partition of it, is used as swap space: run swapoff first",
        Reason::NotEmpty => "it is not empty",
        Reason::OfAnotherUser => {
            "it is owned by another user, who could change what is made in it"
        }
        Reason::OpenToOthers => {
            "other users may write in it, and could replace what is made in it"
        }
        Reason::LinkOfAnother => {
            "it is a link that another user made or may replace: name the directory itself"
        }
        Reason::ProbeLeft => "the file .romtool-probe in it could not be removed: remove it",
        Reason::NameUnfit => "a name has at most 255 bytes here, and a whole path 4095",
        Reason::NoText => "a name that is not UTF-8 cannot be opened",
        Reason::LinkUnfit => {
            "its text is empty or not UTF-8, or has a zero byte or over 4095 bytes"
        }
        Reason::FileNotTaken => "not all of the file could be written",
    }
}
