//! Tests images of both versions, and the upgrade from one to the other.

use jt_image::*;
use std::process::Abort;
use std::test::Fail;

// The image that emits the text `x`.
const X: [u8; 44] = [
    0x4a, 0x54, 0x42, 0x43, 1, 0, 0, 0, 0, 0, 1, 0, 5, 1, 0, 0, 0, 0x78, 1, 0, 0, 0, 0, 0, 2, 0, 0,
    0, 9, 0, 0, 0, 0, 0, 0, 0, 0x1c, 0, 0, 0, 0, 0, 0, 0,
];

// The image X in version 2, with each instruction at line 1 of the template `x`.
const X_TWO: [u8; 61] = [
    0x4a, 0x54, 0x42, 0x43, 2, 0, 0, 0, 0, 0, 1, 0, 5, 1, 0, 0, 0, 0x78, 1, 0, 0, 0, 0, 0, 2, 0, 0,
    0, 9, 0, 0, 0, 0, 0, 0, 0, 0x1c, 0, 0, 0, 0, 0, 0, 0, 1, 0, 1, 0, 0x78, 1, 0, 1, 0, 0, 0, 1, 0,
    1, 0, 0, 0,
];

#[test]
fn x_has_places(rt: HostRuntime) -> Result<(), Fail> {
    let image = decode(rt.alloc(), &X_TWO)?;
    let place = PlaceRef {
        template: "x",
        line: 1,
    };
    assert_eq!(rt; (image.version(), image.templates()), (Version::Two, 1));
    assert_eq!(rt; (image.template(0), image.template(1)), (Some("x"), None));
    assert_eq!(rt;
        (image.place(0, 0), image.place(0, 1)),
        (Some(place), Some(place))
    );
    assert_eq!(rt; (image.place(0, 2), image.place(1, 0)), (None, None));
    assert_eq!(rt; encode(rt.alloc(), &image)?.as_slice(), X_TWO.as_slice());
    assert_eq!(rt;
        image.instruction(0, 0),
        Some(Instruction::Data { constant: 0 })
    );
    let seen = view(rt.alloc(), &X_TWO)?;
    assert_eq!(rt;
        (seen.place(0, 1), seen.template(0)),
        (Some(place), Some("x"))
    );
    assert_eq!(rt;
        (Code::constant_place(&image, 0), Code::unit_place(&image, 0)),
        (Some(12), Some(28))
    );
    assert_eq!(rt;
        (Code::constant_place(&image, 1), Code::unit_place(&image, 1)),
        (None, None)
    );
    Ok(())
}

#[test]
fn x_is_upgraded(rt: HostRuntime) -> Result<(), Fail> {
    let image = decode(rt.alloc(), &X)?;
    assert_eq!(rt;
        (image.version(), image.templates(), image.place(0, 0)),
        (Version::One, 0, None)
    );
    let Ok(image) = upgrade(rt.alloc(), image) else {
        return Err(Fail::from("refused"));
    };
    assert_eq!(rt;
        (image.version(), image.templates(), image.place(0, 0)),
        (Version::Two, 0, None)
    );
    let bytes = encode(rt.alloc(), &image)?;
    assert_eq!(rt;
        (bytes.len(), &bytes[4..6], &bytes[44..]),
        (58, [2u8, 0].as_slice(), [0u8; 14].as_slice())
    );
    let Ok(again) = upgrade(rt.alloc(), image) else {
        return Err(Fail::from("refused"));
    };
    assert_eq!(rt; encode(rt.alloc(), &again)?.len(), 58);
    Ok(())
}

// Returns the first fault of X in version 2 with one byte changed.
fn fault(rt: &HostRuntime, at: usize, byte: u8) -> Option<ImageError> {
    let mut bytes = X_TWO;
    if at < 61 {
        bytes[at] = byte;
    }
    decode(rt.alloc(), &bytes).err()
}

#[test]
fn faults_in_bytes_are_refused(rt: HostRuntime) -> Result<(), Fail> {
    assert_eq!(rt; fault(&rt, 4, 3), Some(ImageError::BadVersion));
    assert_eq!(rt; fault(&rt, 4, 1), Some(ImageError::Trailing));
    // Two templates, the second of which is missing.
    assert_eq!(rt; fault(&rt, 44, 2), Some(ImageError::BadTable));
    // An empty template.
    assert_eq!(rt; fault(&rt, 46, 0), Some(ImageError::BadTable));
    assert_eq!(rt; fault(&rt, 48, 0xff), Some(ImageError::BadText));
    // A number above the templates, and number 0 with a line.
    assert_eq!(rt; fault(&rt, 49, 2), Some(ImageError::BadTable));
    assert_eq!(rt; fault(&rt, 49, 0), Some(ImageError::BadTable));
    // Line 0, line 1,048,577, and one above it.
    assert_eq!(rt; fault(&rt, 57, 0), Some(ImageError::BadTable));
    assert_eq!(rt; fault(&rt, 59, 16), None);
    let mut bytes = X_TWO;
    bytes[57] = 2;
    bytes[59] = 16;
    assert_eq!(rt;
        decode(rt.alloc(), &bytes).err(),
        Some(ImageError::BadTable)
    );
    for n in 0..61 {
        assert_eq!(rt;
            decode(rt.alloc(), &X_TWO[..n]).err(),
            Some(ImageError::Truncated)
        );
    }
    Ok(())
}

// The image of the number -7 and one instruction, Return.
const NUMBER: [u8; 39] = [
    0x4a, 0x54, 0x42, 0x43, 1, 0, 0, 0, 0, 0, 1, 0, 4, 0xf9, 0xff, 0xff, 0xff, 0xff, 0xff, 0xff,
    0xff, 1, 0, 0, 0, 0, 0, 1, 0, 0, 0, 0x1c, 0, 0, 0, 0, 0, 0, 0,
];

#[test]
fn unit_code_is_read_in_place(rt: HostRuntime) -> Result<(), Fail> {
    let image = decode(rt.alloc(), &X)?;
    let Some(unit_code) = Code::unit_code(&image, 0) else {
        return Err(Fail::from("no unit code"));
    };
    assert_eq!(rt;
        (unit_code.get(0), unit_code.get(1), unit_code.get(2)),
        (
            Some(Instruction::Data { constant: 0 }),
            Some(Instruction::Return),
            None
        )
    );
    assert!(rt; Code::unit_code(&image, 1).is_none());
    assert_eq!(rt; Code::integer(&image, 0), None);
    let seen = view(rt.alloc(), &NUMBER)?;
    assert_eq!(rt;
        (Code::integer(&seen, 0), Code::integer(&seen, 1)),
        (Some(-7), None)
    );
    Ok(())
}
