//! `serve --service` at a door in memory, and `discover` of its service document and of others.

use crate::scripts::expect_script;

const SCRIPT: &str = "\
~ the pages of a feed
$ init * > 0 ready|
$ apply < add a|add b|change 1 c|add d|remove 3| > 0 {feed,Feed,5,0,1,5}{gone,3,5}{entry,1,c,3}{entry,2,b,2}{end}
$ serve --listen here --requests 4 --service > 0 200 5|200 5|405 5|404 5|
@ GET /service HTTP/1.1^|^|
@ GET /members HTTP/1.1^|^|
@ POST /members HTTP/1.1^|Content-Length: 0^|^|
@ GET /services HTTP/1.1^|^|
= {service}
= ^|^|3 http://feed.example/member/1|2 http://feed.example/member/2|
= ^|Allow: GET^|Connection: close^|^|not allowed|
= ^|^|not found|
: 200 5
: 200 5
: 405 5
: 404 5
~ no pages without the option
$ init * > 0 ready|
$ apply < add a|add b|change 1 c|add d|remove 3| > 0 {feed,Feed,5,0,1,5}{gone,3,5}{entry,1,c,3}{entry,2,b,2}{end}
$ serve --listen here --requests 4 > 0 404 5|404 5|404 5|404 5|
@ GET /service HTTP/1.1^|^|
@ GET /members HTTP/1.1^|^|
@ POST /members HTTP/1.1^|Content-Length: 0^|^|
@ GET /services HTTP/1.1^|^|
= ^|^|not found|
= ^|^|not found|
= ^|^|not found|
= ^|^|not found|
: 404 5
: 404 5
: 404 5
: 404 5
~ discover: unused
$ discover http://a.example/s/service > 0 collection http://feed.example/feed entries|
+ http://a.example/s/service {service}
? http://a.example/s/service
$ discover http://a.example/s/service > 7 fetch fault|
! source 1
+ http://a.example/s/service {service}
? http://a.example/s/service
$ discover http://a.example/s/service > 7
! output 1
! source 1
+ http://a.example/s/service {service}
? http://a.example/s/service
$ discover http://a.example/s/service > 8
! output 1
+ http://a.example/s/service {service}
? http://a.example/s/service
$ discover http://a.example/s/service > 3 missing http://a.example/s/service|
? http://a.example/s/service
$ discover http://a.example/s/service > 8
! output 1
? http://a.example/s/service
$ discover http://a.example/s/service > 3 no collection|
+ http://a.example/s/service <service xmlns=\"http://www.w3.org/2007/app\"><workspace/></service>
? http://a.example/s/service
$ discover http://a.example/s/service > 3 no collection|
+ http://a.example/s/service <service xmlns=\"http://www.w3.org/2007/app\"><workspace><collection href=\"i\"><accept>image/png</accept></collection><collection href=\"j\"><accept/></collection></workspace></service>
? http://a.example/s/service
Each collection has a line, whichever of them takes entries.
$ discover http://a.example/s/service > 0 collection http://a.example/s/i closed|collection http://a.example/e entries|collection http://b.example/j closed|collection http://a.example/s/service?a entries|
+ http://a.example/s/service <service xmlns=\"http://www.w3.org/2007/app\"><workspace><collection href=\"i\"><accept>image/png</accept></collection><collection href=\"/e\"/></workspace><workspace><collection href=\"http://b.example/j\"><accept>image/png</accept></collection><collection href=\"?a\"><accept> application/atom+xml </accept></collection></workspace></service>
? http://a.example/s/service
$ discover http://a.example/s/service > 10 bad service 55|
+ http://a.example/s/service <service xmlns=\"http://www.w3.org/2007/app\"><workspace><collection/></workspace></service>
? http://a.example/s/service
$ discover http://a.example/s/service > 10
! output 1
+ http://a.example/s/service <service xmlns=\"http://www.w3.org/2007/app\"><workspace><collection/></workspace></service>
? http://a.example/s/service
$ discover http://a.example/s/service > 10 bad service 55|
+ http://a.example/s/service <service xmlns=\"http://www.w3.org/2007/app\"><workspace></service>
? http://a.example/s/service
$ discover http://a.example/s/service > 10 bad service 21|
+ http://a.example/s/service <?xml version=\"1.0\"?><feed/>
? http://a.example/s/service
";

#[test]
fn discovers_the_collections_of_a_service(rt: HostRuntime) {
    expect_script(&rt, rt.alloc(), SCRIPT);
}
