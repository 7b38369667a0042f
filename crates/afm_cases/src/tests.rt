// A small font, and what is told of damaged ones.
use afm::font::read_font;
use lists::bounded::BoundedList;
use metrics::entry::{Glyph, KernPair, Span};

// The number and the line of a refusal, or two zeros; there are slots for three glyphs and one pair.
fn told(file: &[u8]) -> (u8, usize) {
    let mut glyphs = [Glyph::default(); 3];
    let mut pairs = [KernPair::default(); 1];
    match read_font(
        file,
        &mut BoundedList::new(&mut glyphs),
        &mut BoundedList::new(&mut pairs),
    ) {
        Ok(()) => (0, 0),
        Err(fault) => (fault.number(), fault.line()),
    }
}

#[test]
fn a_small_font(rt: HostRuntime) {
    let file =
        b"StartFontMetrics 2.0\r\nFontName Slip\r\nStartCharMetrics 2\r\nC 32 ; WX 100 ; N space ;\r\nC -1 ; WX 007 ; N b ; B 0 0 1 1 ;\r\nEndCharMetrics\r\nStartKernPairs 2\r\nKPX space space -1200\r\nKPX space b 5\r\nEndKernPairs\r\nEndFontMetrics\r\nrubbish";
    let mut glyphs = [Glyph::default(); 3];
    let mut pairs = [KernPair::default(); 2];
    let mut glyph_list = BoundedList::new(&mut glyphs);
    let mut pair_list = BoundedList::new(&mut pairs);
    let answer = read_font(file, &mut glyph_list, &mut pair_list);
    assert!(rt; answer.is_ok());
    assert_eq!(rt; glyph_list.len(), 2);
    assert_eq!(rt; pair_list.len(), 1);
    assert_eq!(rt;
        glyphs[0],
        Glyph {
            name: Span { at: 75, len: 5 },
            code: Some(32),
            width: 100,
        }
    );
    assert_eq!(rt;
        glyphs[1],
        Glyph {
            name: Span { at: 102, len: 1 },
            code: None,
            width: 7,
        }
    );
    assert_eq!(rt;
        pairs[0],
        KernPair {
            first: 32,
            second: 32,
            kern: -1200,
        }
    );
}

#[test]
fn sections(rt: HostRuntime) {
    assert_eq!(rt; told(b""), (15, 1));
    assert_eq!(rt; told(b"StartFontMetrics"), (15, 2));
    assert_eq!(rt; told(b"\nStartFontMetrics\n"), (10, 1));
    assert_eq!(rt; told(b"startFontMetrics\n"), (10, 1));
    assert_eq!(rt; told(b"StartFontMetrics\nEndFontMetrics\n"), (10, 2));
    assert_eq!(rt; told(b"StartFontMetrics\nStartCharMetrics 0\nC\n"), (11, 3));
    assert_eq!(rt;
        told(b"StartFontMetrics\nStartCharMetrics 10000\n"),
        (11, 2)
    );
    assert_eq!(rt; told(b"StartFontMetrics\nStartCharMetrics +5\n"), (11, 2));
    assert_eq!(rt;
        told(b"StartFontMetrics\nStartCharMetrics -0\n\t \nEndCharMetrics\nEndFontMetrics"),
        (0, 0)
    );
    assert_eq!(rt;
        told(b"StartFontMetrics\nStartCharMetrics 0\nComment\n"),
        (10, 3)
    );
    assert_eq!(rt;
        told(b"StartFontMetrics\nStartCharMetrics 1\nEndCharMetrics\n"),
        (15, 3)
    );
    assert_eq!(rt;
        told(b"StartFontMetrics\nStartCharMetrics 0\nEndCharMetrics\n\n"),
        (15, 5)
    );
}

#[test]
fn entries(rt: HostRuntime) {
    assert_eq!(rt;
        told(b"StartFontMetrics\nStartCharMetrics 1\nC 256 ; WX 1 ; N a ;\n"),
        (11, 3)
    );
    assert_eq!(rt;
        told(b"StartFontMetrics\nStartCharMetrics 1\nC 97 ; WX 16384 ; N a ;\n"),
        (11, 3)
    );
    assert_eq!(rt;
        told(b"StartFontMetrics\nStartCharMetrics 2\nC 97 ; WX 1 ; N a ;\nC 97 ; WX 1 ; N b ;\n"),
        (12, 4)
    );
    assert_eq!(rt;
        told(b"StartFontMetrics\nStartCharMetrics 2\nC 97 ; WX 1 ; N a ;\nC -1 ; WX 1 ; N a ;\n"),
        (12, 4)
    );
    assert_eq!(rt;
        told(
            b"StartFontMetrics\nStartCharMetrics 4\nC -1 ; WX 1 ; N a ;\nC -1 ; WX 1 ; N b ;\nC -1 ; WX 1 ; N c ;\nC -1 ; WX 1 ; N d ;\n",
        ),
        (14, 6)
    );
    assert_eq!(rt;
        told(
            b"StartFontMetrics\nStartCharMetrics 1\nC 32 ; WX 1 ; N space ;\nEndCharMetrics\nStartKernPairs 1\nKPX /space /b -1200\n",
        ),
        (13, 6)
    );
    assert_eq!(rt;
        told(
            b"StartFontMetrics\nStartCharMetrics 1\nC 97 ; WX 1 ; N a ;\nEndCharMetrics\nStartKernPairs 2\nKPX a a 1\nKPX a a 2\n",
        ),
        (12, 7)
    );
}
