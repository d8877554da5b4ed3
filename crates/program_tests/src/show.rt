//! `show` of one document: its summary, and the offset at which an input is refused. The whole document has 746 bytes, and
//! its last line 8.

use crate::scripts::expect_script;

const SCRIPT: &str = "\
~ show
$ show < {opening}<title>Feed</title>|<updated>2023-11-14T22:13:20Z</updated>|<author><name>Editor</name></author>|<link rel=\"self\" href=\"http://feed.example/feed\"/>|<sp:span first=\"1\" last=\"1\"/>|<entry><id>urn:uuid:6d1f0c5a-93be-8c27-8000-000000000001</id><title>Hello</title><updated>2023-11-14T22:13:20Z</updated><app:edited>2023-11-14T22:13:20Z</app:edited><link rel=\"edit\" href=\"http://feed.example/member/1\"/><content></content></entry>|</feed>| > 0 subscription|feed 6d1f0c5a-93be-4c27-8d10-2b7f9e4a5c36|span 1 1|prev 0|updated 2023-11-14T22:13:20Z|entry 1 2023-11-14T22:13:20Z Hello|
$ show < {opening}<title>Feed</title>|<updated>2023-11-14T22:13:20Z</updated>|<author><name>Editor</name></author>|<link rel=\"self\" href=\"http://feed.example/archive/2\"/>|<link rel=\"current\" href=\"http://feed.example/feed\"/>|<link rel=\"prev-archive\" href=\"http://feed.example/archive/1\"/>|<link rel=\"next-archive\" href=\"http://feed.example/archive/3\"/>|<fh:archive/>|<sp:span first=\"5\" last=\"8\"/>|<at:deleted-entry ref=\"urn:uuid:6d1f0c5a-93be-8c27-8000-000000000001\" when=\"2023-11-14T22:13:20.003Z\"/>|<entry><id>urn:uuid:6d1f0c5a-93be-8c27-8000-000000000003</id><title type=\"html\">a&amp;b&lt;c&gt;d\"e&#13;{09}|\u{10FFFF}</title><updated>1970-01-01T00:00:00Z</updated><published>1969-12-31T23:59:59.999Z</published><app:edited>1970-01-01T00:00:00.001Z</app:edited><link rel=\"edit\" href=\"http://feed.example/member/3\"/><content>text</content></entry>|</feed>| > 0 archive 2|feed 6d1f0c5a-93be-4c27-8d10-2b7f9e4a5c36|span 5 8|prev 1|updated 2023-11-14T22:13:20Z|gone 1 2023-11-14T22:13:20.003Z|entry 3 1970-01-01T00:00:00Z a&amp;b&lt;c&gt;d&quot;e&#13;&#9;&#10;\u{10FFFF}|
$ show > 10 bad document 0|
$ show < {opening}<title>Feed</title>|<updated>2023-11-14T22:13:20Z</updated>|<author><name>Editor</name></author>|<link rel=\"self\" href=\"http://feed.example/feed\"/>|<sp:span first=\"1\" last=\"1\"/>|<entry><id>urn:uuid:6d1f0c5a-93be-8c27-8000-000000000001</id><title>Hello</title><updated>2023-11-14T22:13:20Z</updated><app:edited>2023-11-14T22:13:20Z</app:edited><link rel=\"edit\" href=\"http://feed.example/member/1\"/><content></content></entry>|</feed> > 10 bad document 738|
$ show < {opening}<title>Feed</title>|<updated>2023-11-14T22:13:20Z</updated>|<author><name>Editor</name></author>|<link rel=\"self\" href=\"http://feed.example/feed\"/>|<sp:span first=\"1\" last=\"1\"/>|<entry><id>urn:uuid:6d1f0c5a-93be-8c27-8000-000000000001</id><title>Hello</title><updated>2023-11-14T22:13:20Z</updated><app:edited>2023-11-14T22:13:20Z</app:edited><link rel=\"edit\" href=\"http://feed.example/member/1\"/><content></content></entry>|</feed>|x > 10 bad document 746|
$ show < {opening}<title>Feed</title>|<updated>2023-11-14T22:13:20Z</updated>|<author><name>Editor</name></author>|<link rel=\"self\" href=\"http://feed.example/feed\"/>|<sp:span first=\"1\" last=\"1\"/>|<entry><id>urn:uuid:6d1f0c5a-93be-8c27-8000-000000000001</id><title>Hello</title><updated>2023-11-14T22:13:20Z</updated><app:edited>2023-11-14T22:13:20Z</app:edited><link rel=\"edit\" href=\"http://feed.example/member/1\"/><content></content></entry>|</feed>|{times,196,longest} > 10 bad document 746|
$ show < {opening}<title>Feed</title>|<updated>2023-11-14T22:13:20Z</updated>|<author><name>Editor</name></author>|<link rel='self' href='http://feed.example/feed'/>| > 10 bad document 410|
An input of 67,108,864 bytes, and one of a byte more.
$ show < {times,65536,longest} > 10 bad document 0|
$ show < {times,65536,longest}x > 10 input too long|
";

#[test]
fn prints_the_summary_or_the_offset(rt: HostRuntime) {
    expect_script(&rt, rt.alloc(), SCRIPT);
}
