//! The certificate that `mirror` prints. `sha256sum` computed the digests.

use crate::scripts::expect_script;

const SCRIPT: &str = "\
~ a mirror
$ mirror --base http://feed.example/ < {pile,f13,3,2,1} > 0 {certificate}
~ a mirror
$ mirror --base http://feed.example/ < {pile,1,2,3,f13,f13,3,2,1}x 1|y| > 0 {certificate}
~ a mirror
$ mirror --base http://feed.example/ < {pile,f13,3,1} > 3 missing http://feed.example/archive/2|
~ a mirror
$ mirror --base http://feed.example/ < {pile,1,3,f13,1,3,f13} > 3 missing http://feed.example/archive/2|
~ a mirror
$ mirror --base http://feed.example/ < {pile,f13,3,1}x 1|y| > 3 missing http://feed.example/archive/2|
~ a mirror
$ mirror --base http://feed.example/ < {pile,3,2,1} > 3 missing http://feed.example/feed|
~ a mirror
$ mirror --base http://feed.example/ < pile 1| > 3 missing http://feed.example/feed|
~ a mirror
$ mirror --base http://feed.example/ < pile 1| > 8
! output 1
~ a mirror
$ mirror --base http://feed.example/ --fetch > 0 {certificate}
+ http://feed.example/feed {letters,13}
+ http://feed.example/archive/1 {sealed,1}
+ http://feed.example/archive/2 {sealed,2}
+ http://feed.example/archive/3 {sealed,3}
? http://feed.example/feed
? http://feed.example/archive/3
? http://feed.example/archive/2
? http://feed.example/archive/1
~ a mirror
$ mirror --base http://feed.example/ --fetch > 0 {certificate}
! source 5
+ http://feed.example/feed {letters,13}
+ http://feed.example/archive/1 {sealed,1}
+ http://feed.example/archive/2 {sealed,2}
+ http://feed.example/archive/3 {sealed,3}
? http://feed.example/feed
? http://feed.example/archive/3
? http://feed.example/archive/2
? http://feed.example/archive/1
~ a mirror
$ mirror --base http://feed.example/ --fetch > 7 fetch fault|
! source 2
+ http://feed.example/feed {letters,13}
+ http://feed.example/archive/1 {sealed,1}
+ http://feed.example/archive/2 {sealed,2}
+ http://feed.example/archive/3 {sealed,3}
? http://feed.example/feed
? http://feed.example/archive/3
~ a mirror
$ mirror --base http://feed.example/ --fetch > 3 missing http://feed.example/archive/2|
+ http://feed.example/feed {letters,13}
+ http://feed.example/archive/1 {sealed,1}
+ http://feed.example/archive/3 {sealed,3}
? http://feed.example/feed
? http://feed.example/archive/3
? http://feed.example/archive/2
~ a mirror
Archive 2's address answers archive 1, which is refused.
$ mirror --base http://feed.example/ --fetch > 3 missing http://feed.example/archive/2|
+ http://feed.example/feed {letters,13}
+ http://feed.example/archive/1 {sealed,1}
+ http://feed.example/archive/2 {sealed,1}
+ http://feed.example/archive/3 {sealed,3}
? http://feed.example/feed
? http://feed.example/archive/3
? http://feed.example/archive/2
~ a mirror
$ mirror --base http://feed.example/ --fetch > 3 missing http://feed.example/feed|
? http://feed.example/feed
~ a store without operations has a certificate
$ init * > 0 ready|
$ mirror --base http://feed.example/ < {pile,f0} > 0 coverage 1|feed 6d1f0c5a-93be-4c27-8d10-2b7f9e4a5c36 http://feed.example/|version 0|document http://feed.example/feed 27b4e081164403fce1e7c6bf0c163f04e8b32fd268534b0f58ac65bc1e41f4ed|live 0 e3b0c44298fc1c149afbf4c8996fb92427ae41e4649b934ca495991b7852b855|end|
~ a mirror certifies what it kept
$ mirror --base http://feed.example/ < {pile,f13,3,1} > 3 missing http://feed.example/archive/2|
$ mirror --base http://feed.example/ < {pile,2} > 0 {certificate}
$ mirror --base http://feed.example/ < pile 1| > 0 {certificate}
~ each call of the output may fail
Four documents, what is before them, and what is after them.
$ mirror --base http://feed.example/ < {pile,f13,3,2,1} > 8
! output 1
$ mirror --base http://feed.example/ < {pile,f13,3,2,1} > 8 coverage 1|feed 6d1f0c5a-93be-4c27-8d10-2b7f9e4a5c36 http://feed.example/|version 13|
! output 2
$ mirror --base http://feed.example/ < {pile,f13,3,2,1} > 8 coverage 1|feed 6d1f0c5a-93be-4c27-8d10-2b7f9e4a5c36 http://feed.example/|version 13|document http://feed.example/feed 434520641e5994d45ae1c7ec7defc01931d2f536119a73ca09a657f4cc707994|
! output 3
$ mirror --base http://feed.example/ < {pile,f13,3,2,1} > 8 coverage 1|feed 6d1f0c5a-93be-4c27-8d10-2b7f9e4a5c36 http://feed.example/|version 13|document http://feed.example/feed 434520641e5994d45ae1c7ec7defc01931d2f536119a73ca09a657f4cc707994|document http://feed.example/archive/3 bffeaabf465befcc5286bc17e5ab1b82684961c03bb2a21d7081fb9e6d402b76|
! output 4
$ mirror --base http://feed.example/ < {pile,f13,3,2,1} > 8 coverage 1|feed 6d1f0c5a-93be-4c27-8d10-2b7f9e4a5c36 http://feed.example/|version 13|document http://feed.example/feed 434520641e5994d45ae1c7ec7defc01931d2f536119a73ca09a657f4cc707994|document http://feed.example/archive/3 bffeaabf465befcc5286bc17e5ab1b82684961c03bb2a21d7081fb9e6d402b76|document http://feed.example/archive/2 222304bbe97e7038202cba3a21bdbe3727575fa3b88a623e6f18e34cf0673b57|
! output 5
$ mirror --base http://feed.example/ < {pile,f13,3,2,1} > 8 coverage 1|feed 6d1f0c5a-93be-4c27-8d10-2b7f9e4a5c36 http://feed.example/|version 13|document http://feed.example/feed 434520641e5994d45ae1c7ec7defc01931d2f536119a73ca09a657f4cc707994|document http://feed.example/archive/3 bffeaabf465befcc5286bc17e5ab1b82684961c03bb2a21d7081fb9e6d402b76|document http://feed.example/archive/2 222304bbe97e7038202cba3a21bdbe3727575fa3b88a623e6f18e34cf0673b57|document http://feed.example/archive/1 d2bf1b9f89d7f604cf2fb360878f6a24680c6839d79fc01771124bc00e05e8d9|
! output 6
$ mirror --base http://feed.example/ < {pile,f13,3,2,1} > 0 {certificate}
! output 7
";

#[test]
fn a_complete_mirror_prints_its_own(rt: HostRuntime) {
    expect_script(&rt, rt.alloc(), SCRIPT);
}
