// Worked edits, run.
use crate::settled;
use fonts::font::Font;
use fonts::pile::pile;
use layers::tracking::TrackingUnits;
use layout::setter::Setter;
use metrics::cells::Cells;
use metrics::entry::{Glyph, KernPair};
use metrics::measurer::Measurer;
use page::ending::Ending;
use page::measure::Measure;
use page::policy::{Policy, Spaces};
use page::row::Row;
use reflow::repaint::Repaint;
use sheet::fault::ReplaceFault;
use sheet::law::law;
use sheet::sheet::Sheet;
use std::process::Abort;
use std::test::Fail;

fn record(from: usize, removed: usize, put: usize, broken: u64) -> Option<Repaint> {
    Some(Repaint {
        whole: false,
        from,
        removed,
        put,
        broken,
    })
}

// Replaces, settles, and compares the record.
fn replaces<M: Measurer, P: Policy>(
    rt: &impl Abort,
    sheet: &mut Sheet<M, P>,
    at: usize,
    del: usize,
    ins: &[u8],
    expected: Option<Repaint>,
) -> Result<(), Fail> {
    let slip = sheet.replace(at, del, ins)?;
    assert_eq!(rt; settled(sheet, slip), expected);
    Ok(())
}

fn glyph(code: u8, width: u16) -> Glyph {
    Glyph {
        code: Some(code),
        width,
        ..Glyph::default()
    }
}

// Three rows change although only the last is edited.
#[test]
fn kern_that_pulls_rows_together(rt: HostRuntime) -> Result<(), Fail> {
    let heap = rt.alloc();
    let glyphs = [
        glyph(b' ', 100),
        glyph(b'a', 600),
        glyph(b'b', 1_200),
        glyph(b'c', 300),
    ];
    let kerns = [KernPair {
        first: b' ',
        second: b'b',
        kern: -1_200,
    }];
    let font = Font::new(heap, &glyphs, &kerns)?;
    let measurer = pile(font, Cells::new(500)?, TrackingUnits::new(0)?);
    let mut sheet = Sheet::new(heap, Setter::new(measurer, Spaces, Measure::new(1_000)?))?;
    replaces(&rt, &mut sheet, 0, 0, b"a bcc", record(0, 1, 3, 3))?;
    replaces(&rt, &mut sheet, 4, 1, b"", record(0, 3, 1, 1))?;
    let mut buffer = [0u8; 8];
    let row = sheet.row(0, &mut buffer)?;
    assert_eq!(rt;
        row,
        Row {
            start: 0,
            end: 4,
            ending: Ending::End,
            width: 1_000,
            reach: 5,
        }
    );
    assert!(rt; &buffer == b"a bc\0\0\0\0");
    Ok(())
}

#[test]
fn edits_of_cells(rt: HostRuntime) -> Result<(), Fail> {
    let heap = rt.alloc();
    let mut sheet = Sheet::new(
        heap,
        Setter::new(Cells::new(500)?, Spaces, Measure::new(5_000)?),
    )?;
    replaces(&rt, &mut sheet, 0, 0, b"the red ink", record(0, 1, 2, 2))?;
    let slip = sheet.remeasure(Measure::new(4_000)?)?;
    let whole = Repaint {
        whole: true,
        from: 0,
        removed: 2,
        put: 2,
        broken: 2,
    };
    assert_eq!(rt; settled(&mut sheet, slip), Some(whole));
    replaces(&rt, &mut sheet, 4, 4, b"", record(0, 2, 1, 1))?;
    assert!(rt; matches!(refusal(&mut sheet, 9, b"z"), Some(ReplaceFault::OutOfText)));
    replaces(&rt, &mut sheet, 0, 0, b"a\n", record(0, 0, 1, 1))?;
    assert_eq!(rt; sheet.row_count(), 2);
    assert_eq!(rt; sheet.char_count(), 9);
    Ok(())
}

// The refusal of an insertion, if it is refused.
fn refusal<M: Measurer, P: Policy>(
    sheet: &mut Sheet<M, P>,
    at: usize,
    ins: &[u8],
) -> Option<ReplaceFault> {
    match sheet.replace(at, 0, ins) {
        Err(fault) => Some(fault),
        Ok(slip) => {
            let _ = settled(sheet, slip);
            None
        }
    }
}

#[test]
fn limits(rt: HostRuntime) -> Result<(), Fail> {
    let heap = rt.alloc();
    let mut sheet = Sheet::new(
        heap,
        Setter::new(Cells::new(500)?, Spaces, Measure::new(5_000)?),
    )?;
    let newlines = [b'\n'; 1_024];
    assert!(rt;
        matches!(
            refusal(&mut sheet, 0, &newlines),
            Some(ReplaceFault::TooManyRows)
        )
    );
    assert!(rt; refusal(&mut sheet, 0, &newlines[0..1_023]).is_none());
    assert_eq!(rt; sheet.row_count(), 1_024);
    let long = [b'a'; 4_097];
    assert!(rt; matches!(refusal(&mut sheet, 0, &long), Some(ReplaceFault::TooLong)));
    assert!(rt;
        matches!(
            refusal(&mut sheet, 0, b"a\xe9"),
            Some(ReplaceFault::NoGlyph(_))
        )
    );
    Ok(())
}

// A sheet and the last record of it, whatever measures the text.
#[derive(Drop)]
struct Desk<M, P> {
    sheet: Sheet<M, P>,
    record: Repaint,
}

#[test]
fn record_kept_beside_its_sheet(rt: HostRuntime) -> Result<(), Fail> {
    let setter = Setter::new(Cells::new(500)?, Spaces, Measure::new(1_000)?);
    let mut desk = Desk {
        sheet: Sheet::new(rt.alloc(), setter)?,
        record: Repaint::default(),
    };
    let slip = desk.sheet.replace(0, 0, b"a bc")?;
    assert!(rt; desk.sheet.settle(slip, &mut desk.record).is_ok());
    assert_eq!(rt; Some(desk.record), record(0, 1, 2, 2));
    Ok(())
}

#[test]
fn law_looked_at_between_calls(rt: HostRuntime) -> Result<(), Fail> {
    let setter = Setter::new(Cells::new(500)?, Spaces, Measure::new(1_000)?);
    let mut sheet = Sheet::new(rt.alloc(), setter)?;
    law(&sheet);
    replaces(&rt, &mut sheet, 0, 0, b"a bc", record(0, 1, 2, 2))?;
    law(&sheet);
    assert_eq!(rt;
        (sheet.row_count(), sheet.char_count(), sheet.tally()),
        (2, 4, 2)
    );
    Ok(())
}
