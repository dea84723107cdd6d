//! Where messages in UPER and APER (X.691) are refused, by hand.
use crate::located::{PlaceRow, Rules, first_wrong_place};
use per_codec_reading::PackedRules;

const UPER: Rules = Rules::Packed(PackedRules::Uper);

const APER: Rules = Rules::Packed(PackedRules::Aper);

/// Messages of Cam.
const CAM: [PlaceRow; 8] = [
    PlaceRow {
        name: "Cam",
        rules: UPER,
        message: b"\x05\xE2\x80\x80\x18\x29\x81\xC0\xF0\x1A\xA8\x00\x52\x00\x00",
        said: "read to 14",
    },
    PlaceRow {
        name: "Cam",
        rules: UPER,
        message: b"\x05\xFF\xC0\x80\x18\x29\x81\xC0\xF0\x1A\xA8\x00\x52\x00",
        said: "octet 1, bit 3, in parameters.speed: a number is outside its value constraint",
    },
    PlaceRow {
        name: "Cam",
        rules: UPER,
        message: b"\x05\xE2\x80\x80\x18\x2F\x81\xC0\xF0\x1A\xA8\x00\x52\x00",
        said: "octet 5, bit 5, in parameters.items[1].size: a number is outside its value constraint",
    },
    PlaceRow {
        name: "Cam",
        rules: UPER,
        message: b"\x05\xE2\x80\x80\x18\x29\x81\xC0\xF0\x1A\xA8\x00\x5F\x00",
        said: "octet 12, bit 4, in parameters.more.size: a number is outside its value constraint",
    },
    PlaceRow {
        name: "Cam",
        rules: UPER,
        message: b"\x05\xE2\x80\x80\x18\x29\x81\xC0\xF0\x1A\xA8",
        said: "octet 7, bit 2, in parameters.addition_0: the input ends early",
    },
    PlaceRow {
        name: "Cam",
        rules: UPER,
        message: b"\x05\x80\x30\x00\x3C\x00",
        said: "octet 4, bit 3, in parameters.items[0].extra: a number is outside its value constraint",
    },
    PlaceRow {
        name: "Cam",
        rules: APER,
        message: b"\x05\xE2\x80\x02\x00\x01\x41\x4C\x0E\x04\xC0\x01\xAA\x80\x01\x48",
        said: "read to 16",
    },
    PlaceRow {
        name: "Cam",
        rules: APER,
        message: b"\x05\xE2\x80\x02\x00\x01\x41\x4C\x0E\x04\xC0\x01\xAA\x80\x01\x7C",
        said: "octet 15, bit 2, in parameters.more.size: a number is outside its value constraint",
    },
];

#[test]
fn components(rt: HostRuntime) {
    assert_eq!(rt; first_wrong_place(rt.alloc(), &CAM), None);
}
