// The table of worked labels, run.
use fonts::font::Font;
use fonts::pile::pile;
use layers::cache::AdvanceCache;
use layers::tracking::TrackingUnits;
use layout::setter::Setter;
use metrics::cells::Cells;
use metrics::entry::{Glyph, KernPair};
use metrics::measurer::Measurer;
use page::ending::Ending;
use page::measure::Measure;
use page::policy::{Anywhere, Policy, Spaces};
use page::row::Row;
use page::text::Text;
use std::alloc::Global;
use std::process::Abort;
use std::test::Fail;

fn row(start: usize, end: usize, ending: Ending, width: u32, reach: usize) -> Row {
    Row {
        start,
        end,
        ending,
        width,
        reach,
    }
}

// Sets `text` and compares its rows.
fn sets<M: Measurer + Drop, P: Policy + Drop>(
    rt: &impl Abort,
    heap: Global,
    mut setter: Setter<M, P>,
    text: &str,
    rows: &[Row],
) -> Result<(), Fail> {
    let chars = Text::new(text.as_bytes().to_vec(heap)?)?;
    let set = setter.set_text(heap, &chars)?;
    assert_eq!(rt; set.as_slice(), rows);
    Ok(())
}

// Cells of 500.
fn cells<P: Drop>(policy: P, measure: u32) -> Result<Setter<Cells, P>, Fail> {
    Ok(Setter::new(Cells::new(500)?, policy, Measure::new(measure)?))
}

fn glyph(code: u8, width: u16) -> Glyph {
    Glyph {
        code: Some(code),
        width,
        ..Glyph::default()
    }
}

#[test]
fn worked_labels(rt: HostRuntime) -> Result<(), Fail> {
    let heap = rt.alloc();
    let end = Ending::End;
    let cut = Ending::Cut;
    let wrapped = Ending::Wrapped;
    sets(
        &rt,
        heap,
        cells(Spaces, 5_000)?,
        "",
        &[row(0, 0, end, 0, 1)],
    )?;
    sets(
        &rt,
        heap,
        cells(Spaces, 5_000)?,
        "abcdefghij",
        &[row(0, 10, end, 5_000, 11)],
    )?;
    sets(
        &rt,
        heap,
        cells(Spaces, 5_000)?,
        "abcdefghijk",
        &[row(0, 10, cut, 5_000, 11), row(10, 11, end, 500, 12)],
    )?;
    sets(
        &rt,
        heap,
        cells(Spaces, 5_000)?,
        "abcdefghij  ",
        &[row(0, 12, end, 5_000, 13)],
    )?;
    sets(
        &rt,
        heap,
        cells(Spaces, 499)?,
        "ab",
        &[row(0, 1, cut, 500, 2), row(1, 2, end, 500, 3)],
    )?;
    sets(
        &rt,
        heap,
        cells(Spaces, 5_000)?,
        "\n",
        &[row(0, 0, Ending::Newline, 0, 1), row(1, 1, end, 0, 2)],
    )?;
    sets(
        &rt,
        heap,
        cells(Spaces, 5_000)?,
        "the red ink",
        &[row(0, 8, wrapped, 3_500, 11), row(8, 11, end, 1_500, 12)],
    )?;
    sets(
        &rt,
        heap,
        cells(Anywhere, 5_000)?,
        "the red ink",
        &[row(0, 10, wrapped, 5_000, 11), row(10, 11, end, 500, 12)],
    )
}

#[test]
fn kerned_label(rt: HostRuntime) -> Result<(), Fail> {
    let heap = rt.alloc();
    let glyphs = [
        glyph(b' ', 100),
        glyph(b'a', 600),
        glyph(b'b', 1_200),
        glyph(b'c', 300),
    ];
    let kerns = [KernPair {
        first: b' ',
        second: b'b',
        kern: -1_200,
    }];
    let font = Font::new(heap, &glyphs, &kerns)?;
    let measurer = pile(font, Cells::new(500)?, TrackingUnits::new(0)?);
    sets(
        &rt,
        heap,
        Setter::new(measurer, Spaces, Measure::new(1_000)?),
        "a bcc",
        &[
            row(0, 2, Ending::Wrapped, 600, 5),
            row(2, 3, Ending::Cut, 1_200, 4),
            row(3, 5, Ending::End, 600, 6),
        ],
    )
}

// Asks a cache, whatever lies below it.
fn holds<M>(cache: &AdvanceCache<M>, before: Option<u8>, c: u8) -> bool {
    cache.held(before, c)
}

#[test]
fn pair_held_once_it_is_answered(rt: HostRuntime) -> Result<(), Fail> {
    let mut cache = AdvanceCache::new(Cells::new(500)?);
    assert!(rt; !holds(&cache, Some(b'a'), b'b'));
    assert_eq!(rt; cache.advance(Some(b'a'), b'b'), Ok(500));
    assert!(rt; holds(&cache, Some(b'a'), b'b'));
    assert!(rt; !holds(&cache, None, b'b'));
    Ok(())
}
