//! The list of the image in memory of `sample_image`, which has a node of each kind.
use crate::sample_image::Sample;
use rom_fields::Plain;
use rom_tree::list;

const LISTED: &[u8] = b"1 d 0755 1000 100 0 0 0 /
2 d 0700 1000 100 0 0 0 /bin
3 f 4755 1000 100 5 0 0 /bin/sh
4 d 0555 1000 100 0 0 0 /bin/deep
5 p 0644 1000 100 0 0 0 /bin/deep/p
6 l 0777 1000 100 4 0 0 /a%20b%25 a%20b%25
7 b 0660 1000 100 0 8 1 /disk
8 c 0620 1000 100 0 4 64 /tty
9 s 0007 1000 100 0 0 0 /log
3 f 4755 1000 100 5 0 0 /%C3%A9%7F
10 d 0000 1000 100 0 0 0 /empty
";

#[test]
fn lists_each_kind(rt: HostRuntime) {
    let mut w = Plain::new(Vec::new(rt.alloc()));
    assert!(rt; list(&Sample, &mut w) == Ok(()));
    let held: Vec<u8> = w.into_inner();
    assert!(rt; held.as_slice() == LISTED);
}
