//! The cursor over the fields of a structure.

use x509_der::{Fields, Tries, Window};

const TWELVE: &[u8] =
    b"\x05\x00\x05\x00\x05\x00\x05\x00\x05\x00\x05\x00\x05\x00\x05\x00\x05\x00\x05\x00\x05\x00\x05\x00";

#[test]
fn fields_one_by_one(rt: HostRuntime) {
    // the contents, what is left at each of three fields, and how many headers were looked at when the cursor came to them
    let windows: [(&[u8], [usize; 3], [u128; 3]); 6] = [
        (b"", [0, 0, 0], [0, 0, 0]),
        (b"\x05\x00", [2, 0, 0], [1, 1, 1]),
        (b"\x05\x00\x05\x00", [4, 2, 0], [1, 2, 2]),
        (TWELVE, [24, 22, 20], [1, 2, 3]),
        // a place where no element stands is not left, and not looked at again
        (b"\x05\x7F", [2, 2, 2], [1, 1, 1]),
        (b"\x05\x00\x05\x7F", [4, 2, 2], [1, 2, 2]),
    ];
    for (window, left, looks) in windows {
        let mut tries = Tries::new();
        let first = Fields::of(&mut tries, &Window::whole(window));
        assert!(rt; first.place.bytes().len() == left[0], "at {window:?}");
        assert!(rt; tries.count() == looks[0], "at {window:?}");
        let second = first.behind(&mut tries, true);
        assert!(rt; second.place.bytes().len() == left[1], "at {window:?}");
        assert!(rt; tries.count() == looks[1], "at {window:?}");
        let third = second.behind(&mut tries, true);
        assert!(rt; third.place.bytes().len() == left[2], "at {window:?}");
        assert!(rt; tries.count() == looks[2], "at {window:?}");
    }
}

#[test]
fn marks_so_far(rt: HostRuntime) {
    let mut tries = Tries::new();
    let fields = Fields::of(&mut tries, &Window::whole(b"\x05\x00\x05\x00"));
    assert!(rt; !fields.are_plain() && !fields.ends_here() && !fields.are_over());
    let last = fields.behind(&mut tries, true);
    assert!(rt; last.ends_here() && !last.are_plain());
    let end = last.behind(&mut tries, true);
    assert!(rt; end.are_plain() && end.are_over());
    let loose = last.behind(&mut tries, false);
    assert!(rt; !loose.are_plain() && loose.are_over());
}
