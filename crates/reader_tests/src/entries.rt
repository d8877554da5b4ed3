//! Entry documents in the styles of several clients, and the drafts that they spell.

use crate::shown::shown;
use entry_reader::{MAX_ENTRY, read_entry};
use std::alloc::Global;
use std::process::Abort;

/// Each row has a document, and its draft as [`shown`] shows it.
static ENTRIES: [(&str, &str); 54] = [
    (
        "<?xml version='1.0'?><atom:entry xmlns:atom='http://www.w3.org/2005/Atom' xmlns:x='urn:x'>\
<atom:id>tag:me</atom:id><atom:title>News</atom:title><atom:content type='html'><![CDATA[<b>A & B\
</b>]]></atom:content><x:mood>ok</x:mood></atom:entry>",
        "id tag:me\ntitle text News\ncontent html <b>A & B</b>\n",
    ),
    (
        "<?xml version='1.0'?><atom:entry xmlns:atom='http://www.w3.org/2005/Atom' xmlns:x='urn:x'>\
<atom:id>tag:me</atom:id>\r\n<atom:title>News</atom:title>\r\n<atom:content type='html'><![CDATA[\
<b>A & B</b>]]></atom:content>\r\n<x:mood>ok</x:mood>\r\n</atom:entry>",
        "id tag:me\ntitle text News\ncontent html <b>A & B</b>\n",
    ),
    (
        "<?xml version=\"1.0\"?>\n<entry xmlns=\"http://www.w3.org/2005/Atom\">\n  \
<title>Atom-Powered Robots Run Amok</title>\n  <id>urn:uuid:1225c695-cfb8-4ebb-aaaa-80da344efa6a\
</id>\n  <updated>2003-12-13T18:30:02Z</updated>\n  <author><name>John Doe</name></author>\n  \
<content>Some text.</content>\n</entry>\n",
        "id urn:uuid:1225c695-cfb8-4ebb-aaaa-80da344efa6a\ntitle text Atom-Powered Robots Run Amok\nupdate\
d 2003-12-13T18:30:02Z\nauthor John Doe\ncontent text Some text.\n",
    ),
    (
        "<?xml version=\"1.0\" encoding=\"utf-8\"?>\r\n<entry xmlns=\"http://www.w3.org/2005/Atom\">\r\n\
<title>Atom draft-07 snapshot</title>\r\n\
<link rel=\"alternate\" type=\"text/html\"\r\n href=\"http://example.org/2005/04/02/atom\"/>\r\n\
<link rel=\"enclosure\" type=\"audio/mpeg\" length=\"1337\"\r\n href=\"http://example.org/audio/ph\
34r_my_podcast.mp3\"/>\r\n<id>tag:example.org,2003:3.2397</id>\r\n<updated>2005-07-31T12:29:29Z\
</updated>\r\n<published>2003-12-13T08:29:29-04:00</published>\r\n<author>\r\n<name>Mark Pilgrim\
</name>\r\n<uri>http://example.org/</uri>\r\n<email>f8dy@example.com</email>\r\n</author>\r\n\
<contributor>\r\n<name>Sam Ruby</name>\r\n</contributor>\r\n<contributor>\r\n<name>Joe Gregorio\
</name>\r\n</contributor>\r\n</entry>\r\n",
        "id tag:example.org,2003:3.2397\ntitle text Atom draft-07 snapshot\nupdated 2005-07-31T12:29:29Z\np\
ublished 2003-12-13T12:29:29Z\nauthor Mark Pilgrim (http://example.org/) [f8dy@example.com]\ncontr\
ibutor Sam Ruby\ncontributor Joe Gregorio\nlink http://example.org/2005/04/02/atom alternate type=\
text/html\nlink http://example.org/audio/ph34r_my_podcast.mp3 enclosure type=audio/mpeg length=133\
7\n",
    ),
    (
        "<entry xmlns=\"http://www.w3.org/2005/Atom\"><title/></entry>",
        "title text \n",
    ),
    (
        "<entry xmlns=\"http://www.w3.org/2005/Atom\"><title></title></entry>",
        "title text \n",
    ),
    (
        "<entry xmlns='http://www.w3.org/2005/Atom' ><title\t>a</title\n></entry >",
        "title text a\n",
    ),
    (
        "\u{FEFF}<entry xmlns=\"http://www.w3.org/2005/Atom\"><title>a</title></entry>",
        "title text a\n",
    ),
    (
        "\u{FEFF}<?xml version=\"1.0\" encoding=\"UTF-8\" standalone=\"no\" ?>\n\
<entry xmlns=\"http://www.w3.org/2005/Atom\"><title>a</title></entry>",
        "title text a\n",
    ),
    (
        "<?xml version = '1.0' encoding = 'us-ASCII'?><entry xmlns=\"http://www.w3.org/2005/Atom\">\
<title>a</title></entry>",
        "title text a\n",
    ),
    (
        "<?xml\n\tversion='1.0'\n\tstandalone='yes'?><entry xmlns=\"http://www.w3.org/2005/Atom\"><title>a\
</title></entry>",
        "title text a\n",
    ),
    (
        "<entry xmlns=\"http://www.w3.org/2005/Atom\"><content>c</content><summary type=\"text\">s\
</summary><rights type=\"html\">r</rights><title type=\"html\">t</title></entry>",
        "title html t\nrights html r\nsummary text s\ncontent text c\n",
    ),
    (
        "<a:entry xmlns:a=\"http://www.w3.org/2005/Atom\"><a:title>a</a:title><title>not Atom</title>\
</a:entry>",
        "title text a\n",
    ),
    (
        "<entry xmlns=\"http://www.w3.org/2005/Atom\" xmlns:b=\"http://www.w3.org/2005/Atom\"><b:title>a\
</b:title></entry>",
        "title text a\n",
    ),
    (
        "<a:entry xmlns:a=\"http://www.w3.org/2005/Atom\"><title xmlns=\"http://www.w3.org/2005/Atom\">a\
</title></a:entry>",
        "title text a\n",
    ),
    (
        "<a:entry xmlns:a=\"http://www.w3.org/2005/Atom\"><a:title>a</a:title><a:id xmlns:a=\"urn:x\">x\
</a:id></a:entry>",
        "title text a\n",
    ),
    (
        "<entry xmlns=\"http://www.w3.org/2005/Atom\"><title>a</title><id xmlns=\"\">x</id><summary>s\
</summary></entry>",
        "title text a\nsummary text s\n",
    ),
    (
        "<e\u{301}ntre\u{301}e:entry xmlns:e\u{301}ntre\u{301}e='http://www.w3.org/2005/Atom'>\
<e\u{301}ntre\u{301}e:title>a</e\u{301}ntre\u{301}e:title></e\u{301}ntre\u{301}e:entry>",
        "title text a\n",
    ),
    (
        "<a.b-c_d:entry xmlns:a.b-c_d=\"http&#58;//www.w3.org/2005/&#x41;tom\"><a.b-c_d:title>a\
</a.b-c_d:title></a.b-c_d:entry>",
        "title text a\n",
    ),
    (
        "<entry xmlns=\"http://www.w3.org/2005/Atom\"><xml:title/><title>a</title></entry>",
        "title text a\n",
    ),
    (
        "<xml:entry xmlns:xml=\"http://www.w3.org/2005/Atom\"><xml:title>a</xml:title></xml:entry>",
        "title text a\n",
    ),
    (
        "<entry xmlns=\"http://www.w3.org/2005/Atom\"><title>a</title><p:id xmlns:p=\"\">x</p:id></entry>",
        "title text a\n",
    ),
    (
        "<entry xmlns=\"http://www.w3.org/2005/Atom\"><title>a</title><x xmlns=\"urn:x\"><title/><title/>\
<updated>x</updated><entry/></x></entry>",
        "title text a\n",
    ),
    (
        "<entry xmlns=\"http://www.w3.org/2005/Atom\"><title>a</title><source><title>s</title><id>x</id>\
</source></entry>",
        "title text a\n",
    ),
    (
        "<entry xmlns=\"http://www.w3.org/2005/Atom\">\
<title xml:lang=\"en\" xml:base=\"u\" x:type=\"xhtml\" dir=\"ltr\">a</title></entry>",
        "title text a\n",
    ),
    (
        "<entry xmlns=\"http://www.w3.org/2005/Atom\">text &amp; <![CDATA[<b>]]> between <title>a\
</title> children</entry>",
        "title text a\n",
    ),
    (
        "<entry xmlns=\"http://www.w3.org/2005/Atom\"><title>a</title><author><x/>b<name>n</name>c<phone>\
<name>m</name></phone></author></entry>",
        "title text a\nauthor n\n",
    ),
    (
        "<entry xmlns=\"http://www.w3.org/2005/Atom\"><title>a</title><link href=\"u\"><x><title/></x>text\
</link><category term=\"t\">text<x/></category></entry>",
        "title text a\nlink u alternate\ncategory t\n",
    ),
    (
        "<entry xmlns=\"http://www.w3.org/2005/Atom\"><id> \t\r\n tag:a b &#32;&#13;</id><title> a \
</title></entry>",
        "id tag:a b\ntitle text  a \n",
    ),
    (
        "<entry xmlns=\"http://www.w3.org/2005/Atom\"><id><![CDATA[ \n]]>x<!-- -->y&#9;</id><title>a\
</title></entry>",
        "id xy\ntitle text a\n",
    ),
    (
        "<entry xmlns=\"http://www.w3.org/2005/Atom\"><id/><title>a</title></entry>",
        "id \ntitle text a\n",
    ),
    (
        "<entry xmlns=\"http://www.w3.org/2005/Atom\"><title>a\r\nb\rc\nd&#13;&#10;e\r\r\n</title></entry>",
        "title text a\nb\nc\nd\r\ne\n\n\n",
    ),
    (
        "<entry xmlns=\"http://www.w3.org/2005/Atom\"><title>\r<!---->\n</title></entry>",
        "title text \n\n\n",
    ),
    (
        "<entry xmlns=\"http://www.w3.org/2005/Atom\"><title><![CDATA[\r\n]]>\r&#10;</title></entry>",
        "title text \n\n\n\n",
    ),
    (
        "<entry xmlns=\"http://www.w3.org/2005/Atom\"><title>a</title>\
<link href=\" a\tb\nc\r\nd\re&#9;&#10;&#13;f \" rel=\"self\"/></entry>",
        "title text a\nlink  a b c d e\t\n\rf  self\n",
    ),
    (
        "<entry xmlns=\"http://www.w3.org/2005/Atom\">\
<title>&lt;&gt;&amp;&quot;&apos;&#65;&#x42;&#x00043;&#xe9;&#x20AC;&#x1F600;</title></entry>",
        "title text <>&\"'ABCé€😀\n",
    ),
    (
        "<entry xmlns=\"http://www.w3.org/2005/Atom\"><title>a</title>\
<link href='?a=1&amp;b=&quot;2&quot;' title=\"it's &#x2f; &gt; > \"/></entry>",
        "title text a\nlink ?a=1&b=\"2\" alternate title=it's / > > \n",
    ),
    (
        "<entry xmlns=\"http://www.w3.org/2005/Atom\"><title>&amp;lt;b></title></entry>",
        "title text &lt;b>\n",
    ),
    (
        "<entry xmlns=\"http://www.w3.org/2005/Atom\"><title>]] ]> ]]&gt; &#93;]></title></entry>",
        "title text ]] ]> ]]> ]]>\n",
    ),
    (
        "<entry xmlns=\"http://www.w3.org/2005/Atom\"><title><![CDATA[]]]]><![CDATA[>]]><![CDATA[]]]>\
</title></entry>",
        "title text ]]>]\n",
    ),
    (
        "<entry xmlns=\"http://www.w3.org/2005/Atom\"><title>a<![CDATA[<b>&amp;]]>c</title></entry>",
        "title text a<b>&amp;c\n",
    ),
    (
        "<?xml-stylesheet href=\"a.xsl\"?><!-- a - b --><?p?>\n\
<entry xmlns=\"http://www.w3.org/2005/Atom\"><?q a?b??><title><!--x-->a<?r ?>b</title></entry>\n\
<!----><?s <a>?>\n",
        "title text ab\n",
    ),
    (
        "<!-->--><entry xmlns=\"http://www.w3.org/2005/Atom\"><title>a</title></entry><!--> <!-->",
        "title text a\n",
    ),
    (
        "<entry xmlns=\"http://www.w3.org/2005/Atom\"><title>a</title>\
<updated> 2003-12-13T18:30:02.25+01:00\n</updated></entry>",
        "title text a\nupdated 2003-12-13T17:30:02.250Z\n",
    ),
    (
        "<entry xmlns=\"http://www.w3.org/2005/Atom\"><title>a</title><updated>2003-12-1<!---->3T18:30:0\
<![CDATA[2]]>&#90;</updated></entry>",
        "title text a\nupdated 2003-12-13T18:30:02Z\n",
    ),
    (
        "<entry xmlns=\"http://www.w3.org/2005/Atom\"><title>a</title><published>2016-12-31T23:59:60Z\
</published></entry>",
        "title text a\npublished 2016-12-31T23:59:59Z\n",
    ),
    (
        "<entry xmlns=\"http://www.w3.org/2005/Atom\"><title>a</title><link rel=\"edit\" href=\"e\"/>\
<link href=\"\" rel=\"\"/><link hreflang=\"en\" title=\"t\" length=\"9\" type=\"x\" rel=\"via\" hr\
ef=\"v\"/></entry>",
        "title text a\nlink e edit\nlink  \nlink v via type=x hreflang=en title=t length=9\n",
    ),
    (
        "<entry xmlns=\"http://www.w3.org/2005/Atom\"><title>a</title><category term=\"\"/>\
<category term=\"t\" scheme=\"s\" label=\"l\"/></entry>",
        "title text a\ncategory \ncategory t scheme=s label=l\n",
    ),
    (
        "<entry xmlns=\"http://www.w3.org/2005/Atom\"><title>a</title><author><email> e </email><name> n \
</name><uri/></author><contributor><name/></contributor></entry>",
        "title text a\nauthor  n  () [ e ]\ncontributor \n",
    ),
    (
        "<entry xmlns=\"http://www.w3.org/2005/Atom\"><title>a</title>\
<control xmlns=\"http://www.w3.org/2007/app\"><draft> no\n</draft></control></entry>",
        "title text a\n",
    ),
    (
        "<entry xmlns=\"http://www.w3.org/2005/Atom\"><title>a</title>\
<p:control xmlns:p=\"http://www.w3.org/2007/app\"/><control><draft>yes</draft></control></entry>",
        "title text a\n",
    ),
    (
        "<entry xmlns=\"http://www.w3.org/2005/Atom\"><title>a</title>\
<p:control xmlns:p=\"http://www.w3.org/2007/app\"><draft>yes</draft><p:draft>n<x>y</x>o</p:draft>\
<y><p:draft/></y></p:control></entry>",
        "title text a\n",
    ),
    (
        "<entry xmlns=\"http://www.w3.org/2005/Atom\"><title>a</title>\
<control xmlns=\"http://www.w3.org/2007/app\"><draft>no</draft></control>\
<control xmlns=\"http://www.w3.org/2007/app\"/></entry>",
        "title text a\n",
    ),
    (
        "<entry xmlns=\"http://www.w3.org/2005/Atom\"><title>a</title><x><x><x><x><x><x><x><x><x><x><x><x>\
<x><x><x><x><x><x><x><x><x><x><x><x><x><x><x><x><x><x><x/></x></x></x></x></x></x></x></x></x>\
</x></x></x></x></x></x></x></x></x></x></x></x></x></x></x></x></x></x></x></x></x></entry>",
        "title text a\n",
    ),
];

/// Compares the draft that a document spells with `want`.
fn compare(rt: &impl Abort, alloc: Global, document: &str, want: &str) {
    assert!(rt; document.len() <= MAX_ENTRY);
    match read_entry(alloc, document.as_bytes()) {
        Ok(draft) => {
            let found = shown(rt, alloc, &draft);
            assert!(rt; found.as_slice() == want.as_bytes(), "{document}");
            drop(draft);
        }
        Err(fault) => panic!(rt; "{fault}: {document}"),
    }
}

#[test]
fn reads_entries(rt: HostRuntime) {
    for (document, want) in &ENTRIES {
        compare(&rt, rt.alloc(), document, want);
    }
}
