//! Requests on a store, and the bytes of their replies.

use crate::stores::{Ask, CAPACITY, Row, Sent, follow, store_disk};
use std::alloc::Global;
use std::process::Abort;

/// A POST of an entry whose elements have a prefix. It has an element of another namespace.
pub const NEWS: &[u8] =
    b"POST /feed HTTP/1.1\r\nContent-Type: application/atom+xml;type=entry\r\nContent-Length: 241\r\n\r\n<?xml version='1.0'?><atom:entry xmlns:atom='http://www.w3.org/2005/Atom' xmlns:x='urn:x'><atom:id>tag:me</atom:id><atom:title>News</atom:title><atom:content type='html'><![CDATA[<b>A & B</b>]]></atom:content><x:mood>ok</x:mood></atom:entry>";

/// Requests on a store with windows of 4 operations.
static FOUR: [Row; 50] = [
    (
        Ask::Bytes(b"FOO /nothing HTTP/1.1\r\n\r\n"),
        Sent::Whole(
            b"HTTP/1.1 501 Not Implemented\r\nContent-Type: text/plain;charset=utf-8\r\nContent-Length: 16\r\nConnection: close\r\n\r\nnot implemented\n",
        ),
    ),
    (
        Ask::Bytes(b"GET /nothing HTTP/1.1\r\n\r\n"),
        Sent::Whole(
            b"HTTP/1.1 404 Not Found\r\nContent-Type: text/plain;charset=utf-8\r\nContent-Length: 10\r\nConnection: close\r\n\r\nnot found\n",
        ),
    ),
    (
        Ask::Bytes(b"GET /feed/ HTTP/1.1\r\n\r\n"),
        Sent::Whole(
            b"HTTP/1.1 404 Not Found\r\nContent-Type: text/plain;charset=utf-8\r\nContent-Length: 10\r\nConnection: close\r\n\r\nnot found\n",
        ),
    ),
    (
        Ask::Bytes(b"GET http://other.example/feed HTTP/1.1\r\n\r\n"),
        Sent::Whole(
            b"HTTP/1.1 404 Not Found\r\nContent-Type: text/plain;charset=utf-8\r\nContent-Length: 10\r\nConnection: close\r\n\r\nnot found\n",
        ),
    ),
    (
        Ask::Bytes(b"HEAD /nothing HTTP/1.1\r\n\r\n"),
        Sent::Whole(
            b"HTTP/1.1 404 Not Found\r\nContent-Type: text/plain;charset=utf-8\r\nContent-Length: 10\r\nConnection: close\r\n\r\nnot found\n",
        ),
    ),
    (
        Ask::Bytes(b"HEAD /feed HTTP/1.1\r\n\r\n"),
        Sent::Whole(
            b"HTTP/1.1 405 Method Not Allowed\r\nContent-Type: text/plain;charset=utf-8\r\nContent-Length: 12\r\nAllow: GET, POST\r\nConnection: close\r\n\r\nnot allowed\n",
        ),
    ),
    (
        Ask::Bytes(
            b"PUT /feed HTTP/1.1\r\nContent-Type: application/atom+xml;type=entry\r\nContent-Length: 67\r\n\r\n<entry xmlns=\"http://www.w3.org/2005/Atom\"><title>a</title></entry>",
        ),
        Sent::Whole(
            b"HTTP/1.1 405 Method Not Allowed\r\nContent-Type: text/plain;charset=utf-8\r\nContent-Length: 12\r\nAllow: GET, POST\r\nConnection: close\r\n\r\nnot allowed\n",
        ),
    ),
    (
        Ask::Bytes(b"OPTIONS /archive/1 HTTP/1.1\r\n\r\n"),
        Sent::Whole(
            b"HTTP/1.1 405 Method Not Allowed\r\nContent-Type: text/plain;charset=utf-8\r\nContent-Length: 12\r\nAllow: GET\r\nConnection: close\r\n\r\nnot allowed\n",
        ),
    ),
    (
        Ask::Bytes(
            b"POST /archive/1 HTTP/1.1\r\nContent-Type: text/plain\r\nContent-Length: 0\r\n\r\n",
        ),
        Sent::Whole(
            b"HTTP/1.1 405 Method Not Allowed\r\nContent-Type: text/plain;charset=utf-8\r\nContent-Length: 12\r\nAllow: GET\r\nConnection: close\r\n\r\nnot allowed\n",
        ),
    ),
    (
        Ask::Bytes(b"PATCH /member/1 HTTP/1.1\r\n\r\n"),
        Sent::Whole(
            b"HTTP/1.1 405 Method Not Allowed\r\nContent-Type: text/plain;charset=utf-8\r\nContent-Length: 12\r\nAllow: GET, PUT, DELETE\r\nConnection: close\r\n\r\nnot allowed\n",
        ),
    ),
    (
        Ask::Bytes(
            b"POST /member/1 HTTP/1.1\r\nContent-Type: application/atom+xml;type=entry\r\nContent-Length: 67\r\n\r\n<entry xmlns=\"http://www.w3.org/2005/Atom\"><title>a</title></entry>",
        ),
        Sent::Whole(
            b"HTTP/1.1 405 Method Not Allowed\r\nContent-Type: text/plain;charset=utf-8\r\nContent-Length: 12\r\nAllow: GET, PUT, DELETE\r\nConnection: close\r\n\r\nnot allowed\n",
        ),
    ),
    (
        Ask::Bytes(b"GET /archive/1 HTTP/1.1\r\n\r\n"),
        Sent::Whole(
            b"HTTP/1.1 404 Not Found\r\nContent-Type: text/plain;charset=utf-8\r\nContent-Length: 10\r\nConnection: close\r\n\r\nnot found\n",
        ),
    ),
    (
        Ask::Bytes(b"GET /member/1 HTTP/1.1\r\n\r\n"),
        Sent::Whole(
            b"HTTP/1.1 404 Not Found\r\nContent-Type: text/plain;charset=utf-8\r\nContent-Length: 10\r\nConnection: close\r\n\r\nnot found\n",
        ),
    ),
    (
        Ask::Bytes(b"DELETE /member/1 HTTP/1.1\r\n\r\n"),
        Sent::Whole(
            b"HTTP/1.1 404 Not Found\r\nContent-Type: text/plain;charset=utf-8\r\nContent-Length: 10\r\nConnection: close\r\n\r\nnot found\n",
        ),
    ),
    (
        Ask::Bytes(
            b"PUT /member/1 HTTP/1.1\r\nContent-Type: text/plain\r\nContent-Length: 1\r\n\r\na",
        ),
        Sent::Whole(
            b"HTTP/1.1 404 Not Found\r\nContent-Type: text/plain;charset=utf-8\r\nContent-Length: 10\r\nConnection: close\r\n\r\nnot found\n",
        ),
    ),
    (
        Ask::Bytes(b"GET /feed HTTP/1.1\r\n\r\n"),
        Sent::Whole(
            b"HTTP/1.1 200 OK\r\nContent-Type: application/atom+xml;type=feed\r\nContent-Length: 499\r\nConnection: close\r\n\r\n<?xml version=\"1.0\" encoding=\"utf-8\"?>\n<feed xmlns=\"http://www.w3.org/2005/Atom\" xmlns:fh=\"http://purl.org/syndication/history/1.0\" xmlns:at=\"http://purl.org/atompub/tombstones/1.0\" xmlns:app=\"http://www.w3.org/2007/app\" xmlns:sp=\"urn:archived-feed:span:1\">\n<id>urn:uuid:6d1f0c5a-93be-4c27-8d10-2b7f9e4a5c36</id>\n<title>Feed</title>\n<updated>2023-11-14T22:13:20Z</updated>\n<author><name>Editor</name></author>\n<link rel=\"self\" href=\"http://feed.example/feed\"/>\n<sp:span first=\"1\" last=\"0\"/>\n</feed>\n",
        ),
    ),
    (
        Ask::Bytes(
            b"POST /feed HTTP/1.1\r\nContent-Type: text/plain\r\nContent-Length: 67\r\n\r\n<entry xmlns=\"http://www.w3.org/2005/Atom\"><title>a</title></entry>",
        ),
        Sent::Whole(
            b"HTTP/1.1 415 Unsupported Media Type\r\nContent-Type: text/plain;charset=utf-8\r\nContent-Length: 18\r\nConnection: close\r\n\r\nnot an entry type\n",
        ),
    ),
    (
        Ask::Bytes(
            b"POST /feed HTTP/1.1\r\nContent-Type: \r\nContent-Length: 67\r\n\r\n<entry xmlns=\"http://www.w3.org/2005/Atom\"><title>a</title></entry>",
        ),
        Sent::Whole(
            b"HTTP/1.1 415 Unsupported Media Type\r\nContent-Type: text/plain;charset=utf-8\r\nContent-Length: 18\r\nConnection: close\r\n\r\nnot an entry type\n",
        ),
    ),
    (
        Ask::Bytes(
            b"POST /feed HTTP/1.1\r\nContent-Type: application/atom+xmlx\r\nContent-Length: 67\r\n\r\n<entry xmlns=\"http://www.w3.org/2005/Atom\"><title>a</title></entry>",
        ),
        Sent::Whole(
            b"HTTP/1.1 415 Unsupported Media Type\r\nContent-Type: text/plain;charset=utf-8\r\nContent-Length: 18\r\nConnection: close\r\n\r\nnot an entry type\n",
        ),
    ),
    (
        Ask::Bytes(
            b"POST /feed HTTP/1.1\r\nContent-Type: application/atom+xml;type=entry\r\nContent-Length: 1\r\n\r\n\xff",
        ),
        Sent::Whole(
            b"HTTP/1.1 400 Bad Request\r\nContent-Type: text/plain;charset=utf-8\r\nContent-Length: 16\r\nConnection: close\r\n\r\nentry 0 NotUtf8\n",
        ),
    ),
    (
        Ask::Bytes(b"POST /feed HTTP/1.1\r\nContent-Length: 20\r\n\r\n<!DOCTYPE x><entry/>"),
        Sent::Whole(
            b"HTTP/1.1 400 Bad Request\r\nContent-Type: text/plain;charset=utf-8\r\nContent-Length: 16\r\nConnection: close\r\n\r\nentry 0 Doctype\n",
        ),
    ),
    (
        Ask::Bytes(b"POST /feed HTTP/1.1\r\nContent-Length: 3\r\n\r\n<a>"),
        Sent::Whole(
            b"HTTP/1.1 400 Bad Request\r\nContent-Type: text/plain;charset=utf-8\r\nContent-Length: 22\r\nConnection: close\r\n\r\nentry 3 NotWellFormed\n",
        ),
    ),
    (
        Ask::Bytes(
            b"POST /feed HTTP/1.1\r\nContent-Length: 139\r\n\r\n<entry xmlns=\"http://www.w3.org/2005/Atom\"><x><x><x><x><x><x><x><x><x><x><x><x><x><x><x><x><x><x><x><x><x><x><x><x><x><x><x><x><x><x><x><x>",
        ),
        Sent::Whole(
            b"HTTP/1.1 400 Bad Request\r\nContent-Type: text/plain;charset=utf-8\r\nContent-Length: 18\r\nConnection: close\r\n\r\nentry 136 TooDeep\n",
        ),
    ),
    (
        Ask::Bytes(b"POST /feed HTTP/1.1\r\nContent-Length: 8\r\n\r\n<entry/>"),
        Sent::Whole(
            b"HTTP/1.1 400 Bad Request\r\nContent-Type: text/plain;charset=utf-8\r\nContent-Length: 19\r\nConnection: close\r\n\r\nentry 0 NotAnEntry\n",
        ),
    ),
    (
        Ask::Bytes(
            b"POST /feed HTTP/1.1\r\nContent-Length: 72\r\n\r\n<entry xmlns=\"http://www.w3.org/2005/Atom\"><title type=\"xhtml\"/></entry>",
        ),
        Sent::Whole(
            b"HTTP/1.1 400 Bad Request\r\nContent-Type: text/plain;charset=utf-8\r\nContent-Length: 15\r\nConnection: close\r\n\r\nentry 43 Xhtml\n",
        ),
    ),
    (
        Ask::Bytes(
            b"POST /feed HTTP/1.1\r\nContent-Length: 77\r\n\r\n<entry xmlns=\"http://www.w3.org/2005/Atom\"><title/><content src=\"u\"/></entry>",
        ),
        Sent::Whole(
            b"HTTP/1.1 400 Bad Request\r\nContent-Type: text/plain;charset=utf-8\r\nContent-Length: 19\r\nConnection: close\r\n\r\nentry 51 OutOfLine\n",
        ),
    ),
    (
        Ask::Bytes(
            b"POST /feed HTTP/1.1\r\nContent-Length: 51\r\n\r\n<entry xmlns=\"http://www.w3.org/2005/Atom\"></entry>",
        ),
        Sent::Whole(
            b"HTTP/1.1 400 Bad Request\r\nContent-Type: text/plain;charset=utf-8\r\nContent-Length: 16\r\nConnection: close\r\n\r\nentry 0 Missing\n",
        ),
    ),
    (
        Ask::Bytes(
            b"POST /feed HTTP/1.1\r\nContent-Length: 67\r\n\r\n<entry xmlns=\"http://www.w3.org/2005/Atom\"><title/><title/></entry>",
        ),
        Sent::Whole(
            b"HTTP/1.1 400 Bad Request\r\nContent-Type: text/plain;charset=utf-8\r\nContent-Length: 15\r\nConnection: close\r\n\r\nentry 51 Twice\n",
        ),
    ),
    (
        Ask::Bytes(
            b"POST /feed HTTP/1.1\r\nContent-Length: 79\r\n\r\n<entry xmlns=\"http://www.w3.org/2005/Atom\"><title/><updated>x</updated></entry>",
        ),
        Sent::Whole(
            b"HTTP/1.1 400 Bad Request\r\nContent-Type: text/plain;charset=utf-8\r\nContent-Length: 17\r\nConnection: close\r\n\r\nentry 51 BadDate\n",
        ),
    ),
    (
        Ask::Bytes(
            b"POST /feed HTTP/1.1\r\nContent-Length: 459\r\n\r\n<entry xmlns=\"http://www.w3.org/2005/Atom\"><author><name/></author><author><name/></author><author><name/></author><author><name/></author><author><name/></author><author><name/></author><author><name/></author><author><name/></author><author><name/></author><author><name/></author><author><name/></author><author><name/></author><author><name/></author><author><name/></author><author><name/></author><author><name/></author><author><name/></author></entry>",
        ),
        Sent::Whole(
            b"HTTP/1.1 400 Bad Request\r\nContent-Type: text/plain;charset=utf-8\r\nContent-Length: 18\r\nConnection: close\r\n\r\nentry 427 TooMany\n",
        ),
    ),
    (
        Ask::Bytes(
            b"POST /feed HTTP/1.1\r\nContent-Type: application/atom+xml;type=entry\r\nContent-Length: 131\r\n\r\n<entry xmlns=\"http://www.w3.org/2005/Atom\"><title/><control xmlns=\"http://www.w3.org/2007/app\"><draft>yes</draft></control></entry>",
        ),
        Sent::Whole(
            b"HTTP/1.1 403 Forbidden\r\nContent-Type: text/plain;charset=utf-8\r\nContent-Length: 6\r\nConnection: close\r\n\r\ndraft\n",
        ),
    ),
    (
        Ask::Bytes(NEWS),
        Sent::Whole(
            b"HTTP/1.1 201 Created\r\nContent-Type: application/atom+xml;type=entry\r\nContent-Length: 444\r\nLocation: http://feed.example/member/1\r\nConnection: close\r\n\r\n<?xml version=\"1.0\" encoding=\"utf-8\"?>\n<entry xmlns=\"http://www.w3.org/2005/Atom\" xmlns:app=\"http://www.w3.org/2007/app\"><id>urn:uuid:6d1f0c5a-93be-8c27-8000-000000000001</id><title>News</title><updated>2023-11-14T22:13:20.001Z</updated><app:edited>2023-11-14T22:13:20.001Z</app:edited><author><name>Editor</name></author><link rel=\"edit\" href=\"http://feed.example/member/1\"/><content type=\"html\">&lt;b&gt;A &amp; B&lt;/b&gt;</content></entry>\n",
        ),
    ),
    (
        Ask::Bytes(b"GET /member/1 HTTP/1.1\r\n\r\n"),
        Sent::Whole(
            b"HTTP/1.1 200 OK\r\nContent-Type: application/atom+xml;type=entry\r\nContent-Length: 444\r\nConnection: close\r\n\r\n<?xml version=\"1.0\" encoding=\"utf-8\"?>\n<entry xmlns=\"http://www.w3.org/2005/Atom\" xmlns:app=\"http://www.w3.org/2007/app\"><id>urn:uuid:6d1f0c5a-93be-8c27-8000-000000000001</id><title>News</title><updated>2023-11-14T22:13:20.001Z</updated><app:edited>2023-11-14T22:13:20.001Z</app:edited><author><name>Editor</name></author><link rel=\"edit\" href=\"http://feed.example/member/1\"/><content type=\"html\">&lt;b&gt;A &amp; B&lt;/b&gt;</content></entry>\n",
        ),
    ),
    (
        Ask::Bytes(b"GET http://feed.example/member/1 HTTP/1.1\r\n\r\n"),
        Sent::Whole(
            b"HTTP/1.1 200 OK\r\nContent-Type: application/atom+xml;type=entry\r\nContent-Length: 444\r\nConnection: close\r\n\r\n<?xml version=\"1.0\" encoding=\"utf-8\"?>\n<entry xmlns=\"http://www.w3.org/2005/Atom\" xmlns:app=\"http://www.w3.org/2007/app\"><id>urn:uuid:6d1f0c5a-93be-8c27-8000-000000000001</id><title>News</title><updated>2023-11-14T22:13:20.001Z</updated><app:edited>2023-11-14T22:13:20.001Z</app:edited><author><name>Editor</name></author><link rel=\"edit\" href=\"http://feed.example/member/1\"/><content type=\"html\">&lt;b&gt;A &amp; B&lt;/b&gt;</content></entry>\n",
        ),
    ),
    (
        Ask::Bytes(
            b"PUT /member/1 HTTP/1.1\r\nContent-Type: application/atom+xml;type=entry\r\nContent-Length: 82\r\n\r\n<entry xmlns=\"http://www.w3.org/2005/Atom\"><title>b</title><id>tag:me</id></entry>",
        ),
        Sent::Whole(
            b"HTTP/1.1 409 Conflict\r\nContent-Type: text/plain;charset=utf-8\r\nContent-Length: 9\r\nConnection: close\r\n\r\nother id\n",
        ),
    ),
    (
        Ask::Bytes(
            b"PUT /member/1 HTTP/1.1\r\nContent-Type: text/plain\r\nContent-Length: 67\r\n\r\n<entry xmlns=\"http://www.w3.org/2005/Atom\"><title>b</title></entry>",
        ),
        Sent::Whole(
            b"HTTP/1.1 415 Unsupported Media Type\r\nContent-Type: text/plain;charset=utf-8\r\nContent-Length: 18\r\nConnection: close\r\n\r\nnot an entry type\n",
        ),
    ),
    (
        Ask::Bytes(
            b"PUT /member/1 HTTP/1.1\r\nContent-Type: application/atom+xml;type=entry\r\nContent-Length: 3\r\n\r\n<a>",
        ),
        Sent::Whole(
            b"HTTP/1.1 400 Bad Request\r\nContent-Type: text/plain;charset=utf-8\r\nContent-Length: 22\r\nConnection: close\r\n\r\nentry 3 NotWellFormed\n",
        ),
    ),
    (
        Ask::Bytes(
            b"PUT /member/1 HTTP/1.1\r\nContent-Type:  APPLICATION/Atom+XML ; x\r\nContent-Length: 122\r\n\r\n<entry xmlns=\"http://www.w3.org/2005/Atom\"><title>b</title><id> urn:uuid:6d1f0c5a-93be-8c27-8000-000000000001</id></entry>",
        ),
        Sent::Whole(
            b"HTTP/1.1 200 OK\r\nContent-Type: application/atom+xml;type=entry\r\nContent-Length: 401\r\nConnection: close\r\n\r\n<?xml version=\"1.0\" encoding=\"utf-8\"?>\n<entry xmlns=\"http://www.w3.org/2005/Atom\" xmlns:app=\"http://www.w3.org/2007/app\"><id>urn:uuid:6d1f0c5a-93be-8c27-8000-000000000001</id><title>b</title><updated>2023-11-14T22:13:20.002Z</updated><app:edited>2023-11-14T22:13:20.002Z</app:edited><author><name>Editor</name></author><link rel=\"edit\" href=\"http://feed.example/member/1\"/><content></content></entry>\n",
        ),
    ),
    (
        Ask::Bytes(b"GET /feed HTTP/1.1\r\n\r\n"),
        Sent::Whole(
            b"HTTP/1.1 200 OK\r\nContent-Type: application/atom+xml;type=feed\r\nContent-Length: 754\r\nConnection: close\r\n\r\n<?xml version=\"1.0\" encoding=\"utf-8\"?>\n<feed xmlns=\"http://www.w3.org/2005/Atom\" xmlns:fh=\"http://purl.org/syndication/history/1.0\" xmlns:at=\"http://purl.org/atompub/tombstones/1.0\" xmlns:app=\"http://www.w3.org/2007/app\" xmlns:sp=\"urn:archived-feed:span:1\">\n<id>urn:uuid:6d1f0c5a-93be-4c27-8d10-2b7f9e4a5c36</id>\n<title>Feed</title>\n<updated>2023-11-14T22:13:20.002Z</updated>\n<author><name>Editor</name></author>\n<link rel=\"self\" href=\"http://feed.example/feed\"/>\n<sp:span first=\"1\" last=\"2\"/>\n<entry><id>urn:uuid:6d1f0c5a-93be-8c27-8000-000000000001</id><title>b</title><updated>2023-11-14T22:13:20.002Z</updated><app:edited>2023-11-14T22:13:20.002Z</app:edited><link rel=\"edit\" href=\"http://feed.example/member/1\"/><content></content></entry>\n</feed>\n",
        ),
    ),
    (
        Ask::Bytes(b"DELETE /member/1 HTTP/1.1\r\n\r\n"),
        Sent::Whole(
            b"HTTP/1.1 200 OK\r\nContent-Type: text/plain;charset=utf-8\r\nContent-Length: 8\r\nConnection: close\r\n\r\ndeleted\n",
        ),
    ),
    (
        Ask::Bytes(b"DELETE /member/1 HTTP/1.1\r\n\r\n"),
        Sent::Whole(
            b"HTTP/1.1 410 Gone\r\nContent-Type: text/plain;charset=utf-8\r\nContent-Length: 5\r\nConnection: close\r\n\r\ngone\n",
        ),
    ),
    (
        Ask::Bytes(b"GET /member/1 HTTP/1.1\r\n\r\n"),
        Sent::Whole(
            b"HTTP/1.1 410 Gone\r\nContent-Type: text/plain;charset=utf-8\r\nContent-Length: 5\r\nConnection: close\r\n\r\ngone\n",
        ),
    ),
    (
        Ask::Bytes(
            b"PUT /member/1 HTTP/1.1\r\nContent-Type: text/plain\r\nContent-Length: 1\r\n\r\na",
        ),
        Sent::Whole(
            b"HTTP/1.1 410 Gone\r\nContent-Type: text/plain;charset=utf-8\r\nContent-Length: 5\r\nConnection: close\r\n\r\ngone\n",
        ),
    ),
    (
        Ask::Bytes(b"GET /member/2 HTTP/1.1\r\n\r\n"),
        Sent::Whole(
            b"HTTP/1.1 404 Not Found\r\nContent-Type: text/plain;charset=utf-8\r\nContent-Length: 10\r\nConnection: close\r\n\r\nnot found\n",
        ),
    ),
    (
        Ask::Bytes(
            b"POST /feed HTTP/1.1\r\nContent-Length: 67\r\n\r\n<entry xmlns=\"http://www.w3.org/2005/Atom\"><title>c</title></entry>",
        ),
        Sent::Whole(
            b"HTTP/1.1 201 Created\r\nContent-Type: application/atom+xml;type=entry\r\nContent-Length: 401\r\nLocation: http://feed.example/member/2\r\nConnection: close\r\n\r\n<?xml version=\"1.0\" encoding=\"utf-8\"?>\n<entry xmlns=\"http://www.w3.org/2005/Atom\" xmlns:app=\"http://www.w3.org/2007/app\"><id>urn:uuid:6d1f0c5a-93be-8c27-8000-000000000002</id><title>c</title><updated>2023-11-14T22:13:20.004Z</updated><app:edited>2023-11-14T22:13:20.004Z</app:edited><author><name>Editor</name></author><link rel=\"edit\" href=\"http://feed.example/member/2\"/><content></content></entry>\n",
        ),
    ),
    (
        Ask::Bytes(b"GET /archive/1 HTTP/1.1\r\n\r\n"),
        Sent::Whole(
            b"HTTP/1.1 404 Not Found\r\nContent-Type: text/plain;charset=utf-8\r\nContent-Length: 10\r\nConnection: close\r\n\r\nnot found\n",
        ),
    ),
    (
        Ask::Bytes(
            b"POST /feed HTTP/1.1\r\nContent-Length: 67\r\n\r\n<entry xmlns=\"http://www.w3.org/2005/Atom\"><title>d</title></entry>",
        ),
        Sent::Whole(
            b"HTTP/1.1 201 Created\r\nContent-Type: application/atom+xml;type=entry\r\nContent-Length: 401\r\nLocation: http://feed.example/member/3\r\nConnection: close\r\n\r\n<?xml version=\"1.0\" encoding=\"utf-8\"?>\n<entry xmlns=\"http://www.w3.org/2005/Atom\" xmlns:app=\"http://www.w3.org/2007/app\"><id>urn:uuid:6d1f0c5a-93be-8c27-8000-000000000003</id><title>d</title><updated>2023-11-14T22:13:20.005Z</updated><app:edited>2023-11-14T22:13:20.005Z</app:edited><author><name>Editor</name></author><link rel=\"edit\" href=\"http://feed.example/member/3\"/><content></content></entry>\n",
        ),
    ),
    (
        Ask::Bytes(b"GET /archive/1 HTTP/1.1\r\n\r\n"),
        Sent::Whole(
            b"HTTP/1.1 200 OK\r\nContent-Type: application/atom+xml;type=feed\r\nContent-Length: 995\r\nConnection: close\r\n\r\n<?xml version=\"1.0\" encoding=\"utf-8\"?>\n<feed xmlns=\"http://www.w3.org/2005/Atom\" xmlns:fh=\"http://purl.org/syndication/history/1.0\" xmlns:at=\"http://purl.org/atompub/tombstones/1.0\" xmlns:app=\"http://www.w3.org/2007/app\" xmlns:sp=\"urn:archived-feed:span:1\">\n<id>urn:uuid:6d1f0c5a-93be-4c27-8d10-2b7f9e4a5c36</id>\n<title>Feed</title>\n<updated>2023-11-14T22:13:20.004Z</updated>\n<author><name>Editor</name></author>\n<link rel=\"self\" href=\"http://feed.example/archive/1\"/>\n<link rel=\"current\" href=\"http://feed.example/feed\"/>\n<link rel=\"next-archive\" href=\"http://feed.example/archive/2\"/>\n<fh:archive/>\n<sp:span first=\"1\" last=\"4\"/>\n<entry><id>urn:uuid:6d1f0c5a-93be-8c27-8000-000000000002</id><title>c</title><updated>2023-11-14T22:13:20.004Z</updated><app:edited>2023-11-14T22:13:20.004Z</app:edited><link rel=\"edit\" href=\"http://feed.example/member/2\"/><content></content></entry>\n<at:deleted-entry ref=\"urn:uuid:6d1f0c5a-93be-8c27-8000-000000000001\" when=\"2023-11-14T22:13:20.003Z\"/>\n</feed>\n",
        ),
    ),
    (
        Ask::Bytes(b"GET /feed HTTP/1.1\r\n\r\n"),
        Sent::Whole(
            b"HTTP/1.1 200 OK\r\nContent-Type: application/atom+xml;type=feed\r\nContent-Length: 818\r\nConnection: close\r\n\r\n<?xml version=\"1.0\" encoding=\"utf-8\"?>\n<feed xmlns=\"http://www.w3.org/2005/Atom\" xmlns:fh=\"http://purl.org/syndication/history/1.0\" xmlns:at=\"http://purl.org/atompub/tombstones/1.0\" xmlns:app=\"http://www.w3.org/2007/app\" xmlns:sp=\"urn:archived-feed:span:1\">\n<id>urn:uuid:6d1f0c5a-93be-4c27-8d10-2b7f9e4a5c36</id>\n<title>Feed</title>\n<updated>2023-11-14T22:13:20.005Z</updated>\n<author><name>Editor</name></author>\n<link rel=\"self\" href=\"http://feed.example/feed\"/>\n<link rel=\"prev-archive\" href=\"http://feed.example/archive/1\"/>\n<sp:span first=\"5\" last=\"5\"/>\n<entry><id>urn:uuid:6d1f0c5a-93be-8c27-8000-000000000003</id><title>d</title><updated>2023-11-14T22:13:20.005Z</updated><app:edited>2023-11-14T22:13:20.005Z</app:edited><link rel=\"edit\" href=\"http://feed.example/member/3\"/><content></content></entry>\n</feed>\n",
        ),
    ),
    (
        Ask::Bytes(b"GET /archive/2 HTTP/1.1\r\n\r\n"),
        Sent::Whole(
            b"HTTP/1.1 404 Not Found\r\nContent-Type: text/plain;charset=utf-8\r\nContent-Length: 10\r\nConnection: close\r\n\r\nnot found\n",
        ),
    ),
];

/// Requests on a store with windows of 1 operation whose areas have 4,096 bytes.
static ONE: [Row; 11] = [
    (
        Ask::Bytes(
            b"POST /feed HTTP/1.1\r\nContent-Length: 67\r\n\r\n<entry xmlns=\"http://www.w3.org/2005/Atom\"><title>a</title></entry>",
        ),
        Sent::Whole(
            b"HTTP/1.1 201 Created\r\nContent-Type: application/atom+xml;type=entry\r\nContent-Length: 401\r\nLocation: http://feed.example/member/1\r\nConnection: close\r\n\r\n<?xml version=\"1.0\" encoding=\"utf-8\"?>\n<entry xmlns=\"http://www.w3.org/2005/Atom\" xmlns:app=\"http://www.w3.org/2007/app\"><id>urn:uuid:6d1f0c5a-93be-8c27-8000-000000000001</id><title>a</title><updated>2023-11-14T22:13:20.001Z</updated><app:edited>2023-11-14T22:13:20.001Z</app:edited><author><name>Editor</name></author><link rel=\"edit\" href=\"http://feed.example/member/1\"/><content></content></entry>\n",
        ),
    ),
    (
        Ask::Bytes(
            b"POST /feed HTTP/1.1\r\nContent-Length: 67\r\n\r\n<entry xmlns=\"http://www.w3.org/2005/Atom\"><title>b</title></entry>",
        ),
        Sent::Whole(
            b"HTTP/1.1 201 Created\r\nContent-Type: application/atom+xml;type=entry\r\nContent-Length: 401\r\nLocation: http://feed.example/member/2\r\nConnection: close\r\n\r\n<?xml version=\"1.0\" encoding=\"utf-8\"?>\n<entry xmlns=\"http://www.w3.org/2005/Atom\" xmlns:app=\"http://www.w3.org/2007/app\"><id>urn:uuid:6d1f0c5a-93be-8c27-8000-000000000002</id><title>b</title><updated>2023-11-14T22:13:20.002Z</updated><app:edited>2023-11-14T22:13:20.002Z</app:edited><author><name>Editor</name></author><link rel=\"edit\" href=\"http://feed.example/member/2\"/><content></content></entry>\n",
        ),
    ),
    (
        Ask::Bytes(b"GET /archive/1 HTTP/1.1\r\n\r\n"),
        Sent::Whole(
            b"HTTP/1.1 200 OK\r\nContent-Type: application/atom+xml;type=feed\r\nContent-Length: 891\r\nConnection: close\r\n\r\n<?xml version=\"1.0\" encoding=\"utf-8\"?>\n<feed xmlns=\"http://www.w3.org/2005/Atom\" xmlns:fh=\"http://purl.org/syndication/history/1.0\" xmlns:at=\"http://purl.org/atompub/tombstones/1.0\" xmlns:app=\"http://www.w3.org/2007/app\" xmlns:sp=\"urn:archived-feed:span:1\">\n<id>urn:uuid:6d1f0c5a-93be-4c27-8d10-2b7f9e4a5c36</id>\n<title>Feed</title>\n<updated>2023-11-14T22:13:20.001Z</updated>\n<author><name>Editor</name></author>\n<link rel=\"self\" href=\"http://feed.example/archive/1\"/>\n<link rel=\"current\" href=\"http://feed.example/feed\"/>\n<link rel=\"next-archive\" href=\"http://feed.example/archive/2\"/>\n<fh:archive/>\n<sp:span first=\"1\" last=\"1\"/>\n<entry><id>urn:uuid:6d1f0c5a-93be-8c27-8000-000000000001</id><title>a</title><updated>2023-11-14T22:13:20.001Z</updated><app:edited>2023-11-14T22:13:20.001Z</app:edited><link rel=\"edit\" href=\"http://feed.example/member/1\"/><content></content></entry>\n</feed>\n",
        ),
    ),
    (
        Ask::Bytes(
            b"POST /feed HTTP/1.1\r\nContent-Length: 67\r\n\r\n<entry xmlns=\"http://www.w3.org/2005/Atom\"><title>c</title></entry>",
        ),
        Sent::Whole(
            b"HTTP/1.1 201 Created\r\nContent-Type: application/atom+xml;type=entry\r\nContent-Length: 401\r\nLocation: http://feed.example/member/3\r\nConnection: close\r\n\r\n<?xml version=\"1.0\" encoding=\"utf-8\"?>\n<entry xmlns=\"http://www.w3.org/2005/Atom\" xmlns:app=\"http://www.w3.org/2007/app\"><id>urn:uuid:6d1f0c5a-93be-8c27-8000-000000000003</id><title>c</title><updated>2023-11-14T22:13:20.003Z</updated><app:edited>2023-11-14T22:13:20.003Z</app:edited><author><name>Editor</name></author><link rel=\"edit\" href=\"http://feed.example/member/3\"/><content></content></entry>\n",
        ),
    ),
    (
        Ask::Bytes(
            b"POST /feed HTTP/1.1\r\nContent-Length: 67\r\n\r\n<entry xmlns=\"http://www.w3.org/2005/Atom\"><title>d</title></entry>",
        ),
        Sent::Whole(
            b"HTTP/1.1 201 Created\r\nContent-Type: application/atom+xml;type=entry\r\nContent-Length: 401\r\nLocation: http://feed.example/member/4\r\nConnection: close\r\n\r\n<?xml version=\"1.0\" encoding=\"utf-8\"?>\n<entry xmlns=\"http://www.w3.org/2005/Atom\" xmlns:app=\"http://www.w3.org/2007/app\"><id>urn:uuid:6d1f0c5a-93be-8c27-8000-000000000004</id><title>d</title><updated>2023-11-14T22:13:20.004Z</updated><app:edited>2023-11-14T22:13:20.004Z</app:edited><author><name>Editor</name></author><link rel=\"edit\" href=\"http://feed.example/member/4\"/><content></content></entry>\n",
        ),
    ),
    (
        Ask::Bytes(
            b"POST /feed HTTP/1.1\r\nContent-Length: 67\r\n\r\n<entry xmlns=\"http://www.w3.org/2005/Atom\"><title>e</title></entry>",
        ),
        Sent::Whole(
            b"HTTP/1.1 201 Created\r\nContent-Type: application/atom+xml;type=entry\r\nContent-Length: 401\r\nLocation: http://feed.example/member/5\r\nConnection: close\r\n\r\n<?xml version=\"1.0\" encoding=\"utf-8\"?>\n<entry xmlns=\"http://www.w3.org/2005/Atom\" xmlns:app=\"http://www.w3.org/2007/app\"><id>urn:uuid:6d1f0c5a-93be-8c27-8000-000000000005</id><title>e</title><updated>2023-11-14T22:13:20.005Z</updated><app:edited>2023-11-14T22:13:20.005Z</app:edited><author><name>Editor</name></author><link rel=\"edit\" href=\"http://feed.example/member/5\"/><content></content></entry>\n",
        ),
    ),
    (
        Ask::Bytes(b"DELETE /member/1 HTTP/1.1\r\n\r\n"),
        Sent::Whole(
            b"HTTP/1.1 507 Insufficient Storage\r\nContent-Type: text/plain;charset=utf-8\r\nContent-Length: 26\r\nConnection: close\r\n\r\nfull sealed 3777 960 4096\n",
        ),
    ),
    (
        Ask::Bytes(
            b"PUT /member/9 HTTP/1.1\r\nContent-Length: 67\r\n\r\n<entry xmlns=\"http://www.w3.org/2005/Atom\"><title>f</title></entry>",
        ),
        Sent::Whole(
            b"HTTP/1.1 404 Not Found\r\nContent-Type: text/plain;charset=utf-8\r\nContent-Length: 10\r\nConnection: close\r\n\r\nnot found\n",
        ),
    ),
    (
        Ask::Bytes(b"GET /archive/4 HTTP/1.1\r\n\r\n"),
        Sent::Whole(
            b"HTTP/1.1 200 OK\r\nContent-Type: application/atom+xml;type=feed\r\nContent-Length: 955\r\nConnection: close\r\n\r\n<?xml version=\"1.0\" encoding=\"utf-8\"?>\n<feed xmlns=\"http://www.w3.org/2005/Atom\" xmlns:fh=\"http://purl.org/syndication/history/1.0\" xmlns:at=\"http://purl.org/atompub/tombstones/1.0\" xmlns:app=\"http://www.w3.org/2007/app\" xmlns:sp=\"urn:archived-feed:span:1\">\n<id>urn:uuid:6d1f0c5a-93be-4c27-8d10-2b7f9e4a5c36</id>\n<title>Feed</title>\n<updated>2023-11-14T22:13:20.004Z</updated>\n<author><name>Editor</name></author>\n<link rel=\"self\" href=\"http://feed.example/archive/4\"/>\n<link rel=\"current\" href=\"http://feed.example/feed\"/>\n<link rel=\"prev-archive\" href=\"http://feed.example/archive/3\"/>\n<link rel=\"next-archive\" href=\"http://feed.example/archive/5\"/>\n<fh:archive/>\n<sp:span first=\"4\" last=\"4\"/>\n<entry><id>urn:uuid:6d1f0c5a-93be-8c27-8000-000000000004</id><title>d</title><updated>2023-11-14T22:13:20.004Z</updated><app:edited>2023-11-14T22:13:20.004Z</app:edited><link rel=\"edit\" href=\"http://feed.example/member/4\"/><content></content></entry>\n</feed>\n",
        ),
    ),
    (
        Ask::Bytes(b"GET /archive/5 HTTP/1.1\r\n\r\n"),
        Sent::Whole(
            b"HTTP/1.1 404 Not Found\r\nContent-Type: text/plain;charset=utf-8\r\nContent-Length: 10\r\nConnection: close\r\n\r\nnot found\n",
        ),
    ),
    (
        Ask::Bytes(b"GET /feed HTTP/1.1\r\n\r\n"),
        Sent::Whole(
            b"HTTP/1.1 200 OK\r\nContent-Type: application/atom+xml;type=feed\r\nContent-Length: 818\r\nConnection: close\r\n\r\n<?xml version=\"1.0\" encoding=\"utf-8\"?>\n<feed xmlns=\"http://www.w3.org/2005/Atom\" xmlns:fh=\"http://purl.org/syndication/history/1.0\" xmlns:at=\"http://purl.org/atompub/tombstones/1.0\" xmlns:app=\"http://www.w3.org/2007/app\" xmlns:sp=\"urn:archived-feed:span:1\">\n<id>urn:uuid:6d1f0c5a-93be-4c27-8d10-2b7f9e4a5c36</id>\n<title>Feed</title>\n<updated>2023-11-14T22:13:20.005Z</updated>\n<author><name>Editor</name></author>\n<link rel=\"self\" href=\"http://feed.example/feed\"/>\n<link rel=\"prev-archive\" href=\"http://feed.example/archive/4\"/>\n<sp:span first=\"5\" last=\"5\"/>\n<entry><id>urn:uuid:6d1f0c5a-93be-8c27-8000-000000000005</id><title>e</title><updated>2023-11-14T22:13:20.005Z</updated><app:edited>2023-11-14T22:13:20.005Z</app:edited><link rel=\"edit\" href=\"http://feed.example/member/5\"/><content></content></entry>\n</feed>\n",
        ),
    ),
];

/// Requests at moments of the clock.
static CLOCKS: [Row; 6] = [
    (
        Ask::At(
            1_699_996_400_000,
            b"POST /feed HTTP/1.1\r\nContent-Length: 67\r\n\r\n<entry xmlns=\"http://www.w3.org/2005/Atom\"><title>a</title></entry>",
        ),
        Sent::Whole(
            b"HTTP/1.1 201 Created\r\nContent-Type: application/atom+xml;type=entry\r\nContent-Length: 401\r\nLocation: http://feed.example/member/1\r\nConnection: close\r\n\r\n<?xml version=\"1.0\" encoding=\"utf-8\"?>\n<entry xmlns=\"http://www.w3.org/2005/Atom\" xmlns:app=\"http://www.w3.org/2007/app\"><id>urn:uuid:6d1f0c5a-93be-8c27-8000-000000000001</id><title>a</title><updated>2023-11-14T22:13:20.001Z</updated><app:edited>2023-11-14T22:13:20.001Z</app:edited><author><name>Editor</name></author><link rel=\"edit\" href=\"http://feed.example/member/1\"/><content></content></entry>\n",
        ),
    ),
    (
        Ask::At(
            253_402_300_799_999,
            b"POST /feed HTTP/1.1\r\nContent-Length: 67\r\n\r\n<entry xmlns=\"http://www.w3.org/2005/Atom\"><title>b</title></entry>",
        ),
        Sent::Whole(
            b"HTTP/1.1 201 Created\r\nContent-Type: application/atom+xml;type=entry\r\nContent-Length: 401\r\nLocation: http://feed.example/member/2\r\nConnection: close\r\n\r\n<?xml version=\"1.0\" encoding=\"utf-8\"?>\n<entry xmlns=\"http://www.w3.org/2005/Atom\" xmlns:app=\"http://www.w3.org/2007/app\"><id>urn:uuid:6d1f0c5a-93be-8c27-8000-000000000002</id><title>b</title><updated>9999-12-31T23:59:59.999Z</updated><app:edited>9999-12-31T23:59:59.999Z</app:edited><author><name>Editor</name></author><link rel=\"edit\" href=\"http://feed.example/member/2\"/><content></content></entry>\n",
        ),
    ),
    (
        Ask::At(
            253_402_300_799_999,
            b"POST /feed HTTP/1.1\r\nContent-Length: 67\r\n\r\n<entry xmlns=\"http://www.w3.org/2005/Atom\"><title>c</title></entry>",
        ),
        Sent::Whole(
            b"HTTP/1.1 500 Internal Server Error\r\nContent-Type: text/plain;charset=utf-8\r\nContent-Length: 6\r\nConnection: close\r\n\r\nclock\n",
        ),
    ),
    (
        Ask::At(0, b"DELETE /member/1 HTTP/1.1\r\n\r\n"),
        Sent::Whole(
            b"HTTP/1.1 500 Internal Server Error\r\nContent-Type: text/plain;charset=utf-8\r\nContent-Length: 6\r\nConnection: close\r\n\r\nclock\n",
        ),
    ),
    (
        Ask::At(
            0,
            b"PUT /member/1 HTTP/1.1\r\nContent-Type: text/plain\r\nContent-Length: 67\r\n\r\n<entry xmlns=\"http://www.w3.org/2005/Atom\"><title>c</title></entry>",
        ),
        Sent::Whole(
            b"HTTP/1.1 415 Unsupported Media Type\r\nContent-Type: text/plain;charset=utf-8\r\nContent-Length: 18\r\nConnection: close\r\n\r\nnot an entry type\n",
        ),
    ),
    (
        Ask::At(
            0,
            b"PUT /member/1 HTTP/1.1\r\nContent-Length: 82\r\n\r\n<entry xmlns=\"http://www.w3.org/2005/Atom\"><title>c</title><id>tag:me</id></entry>",
        ),
        Sent::Whole(
            b"HTTP/1.1 409 Conflict\r\nContent-Type: text/plain;charset=utf-8\r\nContent-Length: 9\r\nConnection: close\r\n\r\nother id\n",
        ),
    ),
];

/// Requests on a store with windows of 4 operations whose areas have 4,096 bytes.
static FULL: [Row; 3] = [
    (
        Ask::Post(3_968, 0),
        Sent::Ends(
            b"HTTP/1.1 507 Insufficient Storage\r\n",
            b"\r\n\r\nfull journal 85 4012 4096\n",
        ),
    ),
    (
        Ask::Post(3_967, 0),
        Sent::Ends(b"HTTP/1.1 201 Created\r\n", b"</entry>\n"),
    ),
    (
        Ask::Bytes(b"DELETE /member/1 HTTP/1.1\r\n\r\n"),
        Sent::Ends(
            b"HTTP/1.1 507 Insufficient Storage\r\n",
            b"\r\n\r\nfull journal 4096 26 4096\n",
        ),
    ),
];

/// A body of the limit, 65,536 bytes. The rest of the document has 73 bytes.
static LONGEST: [Row; 1] = [(
    Ask::Post(4, 65_536 - 4 - 73),
    Sent::Ends(b"HTTP/1.1 201 Created\r\n", b"</entry>\n"),
)];

/// Makes a store and answers requests on it, each with the expected reply.
fn follow_on(rt: &impl Abort, alloc: Global, window: u32, capacity: u64, rows: &[Row]) {
    let mut disk = store_disk(rt, alloc, window, capacity, 0);
    follow(rt, alloc, &mut disk, rows);
    drop(disk);
}

#[test]
fn answers_by_the_table_of_replies(rt: HostRuntime) {
    follow_on(&rt, rt.alloc(), 4, CAPACITY, &FOUR);
}

#[test]
fn answers_by_the_clock_and_until_an_area_is_full(rt: HostRuntime) {
    follow_on(&rt, rt.alloc(), 4, CAPACITY, &CLOCKS);
    follow_on(&rt, rt.alloc(), 1, 4_096, &ONE);
    follow_on(&rt, rt.alloc(), 4, 4_096, &FULL);
    follow_on(&rt, rt.alloc(), 4, CAPACITY, &LONGEST);
}
