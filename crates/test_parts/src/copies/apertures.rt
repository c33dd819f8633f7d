ghost use Rattle.std.specs.Prelude.{◌≡◌, length};

use crate::wanted::{ensure, is_number};
use aperture_table::Aperture;
use std::process::Abort;

/// The frames to which four pages are mapped.
type Frames = (Option<u32>, Option<u32>, Option<u32>, Option<u32>);

/// Asserts that the pages are mapped to these frames.
fn assert_frames(rt: &impl Abort, aper: &Aperture, want: Frames)
    requires { length aper.now ≡ 4 }
{
    ensure(
        rt,
        (aper.get(0), aper.get(1), aper.get(2), aper.get(3)) == want,
    );
}

/// Maps the page to the frame, or clears it.
fn change(rt: &impl Abort, aper: &mut Aperture, page: u32, frame: Option<u32>)
    requires { length aper.old ≡ 4 }
    ensures { length aper.new ≡ 4 }
{
    ensure(rt, page < 4);
    match frame {
        Some(frame) => aper.set(page, frame),
        None => aper.clear(page),
    }
}

/// Pages, the frame to which each is mapped, or none where it is cleared, and the frames of all pages before.
type Row = (u32, Option<u32>, Frames);

const ROWS: &[Row] = &[
    (3, Some(5), (None, None, None, None)),
    (0, Some(7), (None, None, None, Some(5))),
    (3, Some(6), (Some(7), None, None, Some(5))),
    (0, None, (Some(7), None, None, Some(6))),
    (0, None, (None, None, None, Some(6))),
];

/// Pages are mapped and cleared one at a time.
#[test]
fn pages_are_mapped_apart(rt: HostRuntime) {
    let rt = &rt;
    let mut aper = Aperture::new(rt.alloc(), 4).expect(rt, "pages");
    for (page, frame, before) in ROWS {
        assert_frames(rt, &aper, *before);
        change(rt, &mut aper, *page, *frame);
    }
}
