//! Where the elements of a window stand.

use x509_der::{Elements, Stop, Tries};

const THREE: &[u8] = b"\x05\x00\x05\x00\x05\x00";

#[test]
fn places_of_elements(rt: HostRuntime) {
    let mut tries = Tries::new();
    let two: Elements<'_, 2> = Elements::cut(&mut tries, THREE);
    // the third is looked at, and not held
    assert!(rt; tries.count() == 3);
    assert!(rt; two.count() == 2);
    assert!(rt; two.stop() == Stop::Full);
    for (k, left) in [(0, 6), (1, 4), (2, 2)] {
        let place = two.at(k);
        assert!(rt; place.bytes().len() == left, "at {k}");
        assert!(rt; place.rest().len() == left - 2, "at {k}");
        assert!(rt; place.is_element(), "at {k}");
    }
    // the places were looked at when they were cut
    assert!(rt; tries.count() == 3);
    let one: Elements<'_, 2> = Elements::cut(&mut tries, b"\x05\x00");
    assert!(rt; one.at(1).bytes().is_empty() && one.at(2).bytes().is_empty());
    assert!(rt; !one.at(1).is_element());
}
