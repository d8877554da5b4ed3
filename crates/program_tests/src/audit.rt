//! `audit` of certificates and piles. `sha256sum` computed the digests.

use crate::runs::{fresh, ran};
use crate::scripts::{expect_script, expect_turns};
use crate::text::CERTIFICATE;

const SCRIPT: &str = "\
~ verdicts
$ audit < {certificate}{pile,f13,3,2,1} > 0 accepted 13 13|
$ audit < {certificate}{pile,1,2}http://feed.example/feed 1|x| > 3 digest differs http://feed.example/feed 2d711642b726b04401627ca9fbac32f5c8530fb1903cc4db02258717921a4881|
$ audit < {certificate}{pile,f13,3,1} > 3 no document http://feed.example/archive/2|
$ audit < {certificate}pile 1| > 3 no document http://feed.example/feed|
$ audit < {edited,archive/3 b,archive/3 c}{pile,f13,3,2,1} > 3 digest differs http://feed.example/archive/3 bffeaabf465befcc5286bc17e5ab1b82684961c03bb2a21d7081fb9e6d402b76|
$ audit < {edited,434520641e5994d45ae1c7ec7defc01931d2f536119a73ca09a657f4cc707994,2d711642b726b04401627ca9fbac32f5c8530fb1903cc4db02258717921a4881}{pile,f13,3,2,1}http://feed.example/feed 1|x| > 3 not a document http://feed.example/feed|
$ audit < {edited,4a5c36,4a5c37}{pile,f13,3,2,1} > 3 wrong document http://feed.example/feed|
$ audit < {edited,version 13,version 12}{pile,f13,3,2,1} > 3 version differs 13|
$ audit < {edited,document http://feed.example/archive/2 222304bbe97e7038202cba3a21bdbe3727575fa3b88a623e6f18e34cf0673b57|,}{pile,f13,3,2,1} > 3 broken chain http://feed.example/archive/1|
$ audit < {edited,document http://feed.example/archive/1 d2bf1b9f89d7f604cf2fb360878f6a24680c6839d79fc01771124bc00e05e8d9|,}{pile,f13,3,2,1} > 3 not the first 5|
$ audit < {edited,live 13,live 12}{pile,f13,3,2,1} > 3 live differs 13 295c1574b2102efff17182faf9a781ea6d2f927cee1b6439aa96ebff632451c2|
$ audit < {edited,live 13 2,live 13 3}{pile,f13,3,2,1} > 3 live differs 13 295c1574b2102efff17182faf9a781ea6d2f927cee1b6439aa96ebff632451c2|
The subscription document of the twelfth operation replaces the newest one.
$ audit < {certificate}{pile,1,2,3,f12} > 3 digest differs http://feed.example/feed 0bad81675ee4072d5a3a4054e1c63d75691a86a9ae3aebbc4e68441a6b75736a|
A pile may have 100,000 offers.
$ audit < {certificate}pile 1|{times,100000,x 0||} > 3 no document http://feed.example/feed|
~ refusals
$ audit < {edited,coverage 1,coverage 2}pile 1| > 10 bad certificate 1|
$ audit < {edited,feed 6d,feed 6D}pile 1| > 10 bad certificate 2|
$ audit < {edited,36 http://feed.example/,36 http://feed.example}pile 1| > 10 bad certificate 2|
$ audit < {edited,version 13,version 013}pile 1| > 10 bad certificate 3|
$ audit < {edited,feed 434520641e,feed 434520641E}pile 1| > 10 bad certificate 4|
$ audit < {edited,feed 4345,archive/4 4345}pile 1| > 10 bad certificate 4|
$ audit < {edited,archive/1 d,archive/01 d}pile 1| > 10 bad certificate 7|
$ audit < {edited,live 13,live  13}pile 1| > 10 bad certificate 8|
$ audit < {edited,51c2|,51c|}pile 1| > 10 bad certificate 8|
$ audit < {edited,|end|,|End|}pile 1| > 10 bad certificate 9|
$ audit < {edited,|end|,||end|}pile 1| > 10 bad certificate 9|
$ audit < {edited,|end|,|}pile 1| > 10 bad certificate 9|
$ audit < {edited,|end|,|} > 10 bad certificate 9|
$ audit < {edited,|end|,|end} > 10 bad certificate 9|
$ audit < {certificate} > 10 bad pile 0|
$ audit < {certificate}pile 1 > 10 bad pile 0|
$ audit < {certificate}pile 2| > 10 bad pile 0|
$ audit < {certificate}pile 1|x > 10 bad pile 7|
$ audit < {certificate}pile 1|x 1|y|x 1|y > 10 bad pile 13|
The certificate is read first.
$ audit < {edited,version 13,version 013}pile 2| > 10 bad certificate 3|
A pile with a bad offer has no verdict.
$ audit < {edited,version 13,version 12}pile 1|x 1|yy > 10 bad pile 7|
$ audit < {certificate}pile 1|{times,100001,x 0||} > 10 too many offers|
The output fails.
$ audit < {certificate}pile 1| > 8
! output 1
$ audit < {edited,version 13,version 013}pile 1| > 10
! output 1
";

#[test]
fn each_verdict_and_each_refusal_comes(rt: HostRuntime) {
    expect_script(&rt, rt.alloc(), SCRIPT);
}

/// An input of more bytes than three buffers.
const INPUT: &str = "\
$ audit < {certificate}{pile,f13,3,2,1}x 200704|{times,196,longest}| > 9 input fault| then 0 accepted 13 13|
! each input 4
";

#[test]
fn each_call_of_the_input_may_fail(rt: HostRuntime) {
    expect_turns(&rt, rt.alloc(), INPUT);
}

#[test]
fn a_certificate_that_is_cut_is_refused(rt: HostRuntime) {
    let alloc = rt.alloc();
    let mut disk = fresh(&rt, alloc, 0);
    // The part ends within or after this line.
    let mut line = 1u32;
    for (length, byte) in CERTIFICATE.as_bytes().iter().enumerate() {
        let part = CERTIFICATE.as_bytes().get(..length).expect(&rt, "a part");
        let wanted = format!(in alloc; "bad certificate {line}\n").expect(&rt, "memory");
        let end = ran(&rt, alloc, &mut disk, "audit", part);
        assert!(rt; end.is(10, wanted.as_bytes()), "{length}");
        if *byte == b'\n' {
            line = line.saturating_add(1);
        }
    }
    drop(disk);
}
