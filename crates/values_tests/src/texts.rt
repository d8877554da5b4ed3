//! Texts, and their escaped forms.

use atom_values::{AtomText, TextFault, escape_into, escaped_len, trimmed, unescape};

/// Bytes, and the offset of the first that is no XML character.
static TEXTS: [(&[u8], Option<usize>); 12] = [
    (b"", None),
    (b"\t\n\r ~\xC2\x80\xEF\xBF\xBD\xF4\x8F\xBF\xBF", None),
    (b"\x0B", Some(0)),
    (b"ab\x00", Some(2)),
    (b"a\xEF\xBF\xBE", Some(1)),
    (b"\xEF\xBF\xBF", Some(0)),
    (b"a\xE2\x82", Some(1)),
    (b"\xC3\xA9\x80", Some(2)),
    (b"a\xC0\xAF", Some(1)),
    (b"ab\xED\xA0\x80", Some(2)),
    (b"\xF4\x90\x80\x80", Some(0)),
    (b"\xC3\xA9\x1F\xFF", Some(2)),
];

#[test]
fn takes_xml_characters_alone(rt: HostRuntime) {
    for &(bytes, at) in &TEXTS {
        let text = AtomText::of(rt.alloc(), bytes);
        let want = match at {
            Some(at) => Err(TextFault::NotXmlChar { at }),
            None => Ok(bytes),
        };
        assert!(rt;
            text.as_ref()
                .map(|text| text.bytes())
                .map_err(|fault| *fault)
                == want,
            "{bytes:?}"
        );
        drop(text);
    }
}

#[test]
fn bounds_the_length(rt: HostRuntime) {
    let longest = vec![in rt.alloc(); b'a'; 65_536].expect(&rt, "memory");
    let text = AtomText::of(rt.alloc(), longest.as_slice()).expect(&rt, "a text");
    assert!(rt; text.bytes() == longest.as_slice());
    for byte in [b'a', 0xFF] {
        let long = vec![in rt.alloc(); byte; 65_537].expect(&rt, "memory");
        let fault = AtomText::of(rt.alloc(), long.as_slice()).err();
        assert!(rt; fault == Some(TextFault::TooLong { length: 65_537 }));
        drop(long);
    }
    drop((longest, text));
}

/// A text with bytes that are escaped in content, and a longer character.
const TITLE: &[u8] = b"a&b<c>d\"e\r\xF4\x8F\xBF\xBF";

/// The bytes that are escaped, the last three in an attribute only.
const TABLE: &[u8] = b"&<>\r\"\t\n";

/// Texts, quoted or not, and their escaped forms.
static ESCAPED: [(&[u8], bool, &[u8]); 4] = [
    (TITLE, false, b"a&amp;b&lt;c&gt;d\"e&#13;\xF4\x8F\xBF\xBF"),
    (
        TITLE,
        true,
        b"a&amp;b&lt;c&gt;d&quot;e&#13;\xF4\x8F\xBF\xBF",
    ),
    (TABLE, false, b"&amp;&lt;&gt;&#13;\"\t\n"),
    (TABLE, true, b"&amp;&lt;&gt;&#13;&quot;&#9;&#10;"),
];

#[test]
fn escapes(rt: HostRuntime) {
    for &(bytes, quoted, written) in &ESCAPED {
        let text = AtomText::of(rt.alloc(), bytes).expect(&rt, "a text");
        let mut out = vec![in rt.alloc(); b'#'].expect(&rt, "memory");
        assert!(rt; escape_into(&mut out, &text, quoted) == Ok(()));
        assert!(rt; out.as_slice().strip_prefix(b"#") == Some(written));
        assert!(rt; escaped_len(&text, quoted) == written.len());
        drop((text, out));
    }
}

/// Escaped forms, quoted or not, and the texts that they are of.
static WRITTEN: [(&[u8], bool, Option<&[u8]>); 18] = [
    (b"", false, Some(b"")),
    (b"&amp;&lt;&gt;&#13;\"\t\n", false, Some(TABLE)),
    (b"&amp;&lt;&gt;&#13;&quot;&#9;&#10;", true, Some(TABLE)),
    (
        b"a&amp;b&lt;c&gt;d&quot;e&#13;\xF4\x8F\xBF\xBF",
        true,
        Some(TITLE),
    ),
    (
        b"&amp;amp;\xF4\x8F\xBF\xBF",
        false,
        Some(b"&amp;\xF4\x8F\xBF\xBF"),
    ),
    (b"a&b", false, None),
    (b"&amp", false, None),
    (b"a<b", false, None),
    (b"a>b", false, None),
    (b"\r", false, None),
    (b"&#38;", false, None),
    (b"&#xD;", false, None),
    (b"&apos;", false, None),
    (b"&quot;", false, None),
    (b"&#9;", false, None),
    (b"\"", true, None),
    (b"\n", true, None),
    (b"\x0B", false, None),
];

#[test]
fn reads_back_what_is_escaped(rt: HostRuntime) {
    for &(written, quoted, bytes) in &WRITTEN {
        let text = unescape(rt.alloc(), written, quoted).expect(&rt, "memory");
        assert!(rt;
            text.as_ref().map(|text| text.bytes()) == bytes,
            "{written:?}"
        );
        drop(text);
    }
}

/// Texts, and what is left of them without the white space at their ends.
static TRIMMED: [(&[u8], &[u8]); 5] = [
    (b"", b""),
    (b" \t\r\n", b""),
    (b"\n a\t b\r ", b"a\t b"),
    (b"a", b"a"),
    // A form feed and a no-break space aren't white space of XML.
    (b" \x0Ca\xC2\xA0 ", b"\x0Ca\xC2\xA0"),
];

#[test]
fn trims_white_space_of_xml(rt: HostRuntime) {
    for (text, want) in &TRIMMED {
        assert!(rt; trimmed(text) == *want, "{text:?}");
    }
}
