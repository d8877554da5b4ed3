//! The certificate of a generated history of 60 operations, audited against its documents: in any order, and with one of
//! them changed, lost or doubled. A program in Python made the documents by docs/FORMATS.md, and computed the digests.

use crate::runs::{fresh, ran};
use crate::text::{expanded, push, push_offer};
use feed_disk::Disk;
use std::alloc::Global;
use std::process::Abort;

/// 24 additions, 23 changes and 13 removals. A line gives its own number to the title of what it makes.
const LINES: &str =
    "add t1|add t2|add t3|add t4|add t5|change 1 t6|add t7|remove 6|add t9|add t10|change 1 t11|add t12|remove 1|add t14|change 10 t15|add t16|add t17|add t18|add t19|change 10 t20|remove 9|change 12 t22|add t23|add t24|change 11 t25|remove 16|remove 10|change 11 t28|change 3 t29|add t30|remove 15|change 12 t32|change 14 t33|change 4 t34|change 12 t35|change 7 t36|change 11 t37|change 11 t38|remove 14|add t40|add t41|change 8 t42|remove 13|change 17 t44|add t45|remove 19|remove 17|remove 18|change 7 t49|change 4 t50|add t51|change 12 t52|change 5 t53|remove 12|change 11 t55|change 4 t56|remove 2|add t58|add t59|add t60|";

/// A document of the store.
struct Document {
    /// The address after the base.
    path: &'static str,
    /// The words that show it.
    words: &'static str,
    /// The document, as `text` reads it.
    text: &'static str,
    /// Its digest after its middle byte was changed.
    changed: &'static str,
}

/// The documents, the newest first.
static DOCUMENTS: [Document; 15] = [
    Document {
        path: "feed",
        words: "show feed",
        text: "{feed,Feed,60,14,57,60}{entry,24,t60,60}{entry,23,t59,59}{entry,22,t58,58}{gone,2,57}{end}",
        changed: "1665c697d95cd828c96ec49197cf86b53a5e4de455c1eb10e0b211cd5be0765f",
    },
    Document {
        path: "archive/14",
        words: "show archive 14",
        text: "{archive,14,Feed,56,53,56}{entry,4,t56,56}{entry,11,t55,55}{gone,12,54}{entry,5,t53,53}{end}",
        changed: "98dd290bd9f34e6f08998352e370c3c57ab7cfde45fb14e9292ccbf506b70f62",
    },
    Document {
        path: "archive/13",
        words: "show archive 13",
        text: "{archive,13,Feed,52,49,52}{entry,12,t52,52}{entry,21,t51,51}{entry,4,t50,50}{entry,7,t49,49}{end}",
        changed: "73cd0a991c18117e05c70cf333da05c43feb474f5c10e2550a44d9aeb648344b",
    },
    Document {
        path: "archive/12",
        words: "show archive 12",
        text: "{archive,12,Feed,48,45,48}{gone,18,48}{gone,17,47}{gone,19,46}{entry,20,t45,45}{end}",
        changed: "cd8113cf6cb606e6a48998382d31a4414a0d561ad272f1c284781cd21d6fb8ba",
    },
    Document {
        path: "archive/11",
        words: "show archive 11",
        text: "{archive,11,Feed,44,41,44}{entry,17,t44,44}{gone,13,43}{entry,8,t42,42}{entry,19,t41,41}{end}",
        changed: "45e419720d8f93f3e79bf53b6bbaea732866f0af5dfc47efda9ea0c17c2f7ab5",
    },
    Document {
        path: "archive/10",
        words: "show archive 10",
        text: "{archive,10,Feed,40,37,40}{entry,18,t40,40}{gone,14,39}{entry,11,t38,38}{end}",
        changed: "61cd173c807ab7cd170f2046bd58d1d05ab24dd3d693d344ada3886e27b8000c",
    },
    Document {
        path: "archive/9",
        words: "show archive 9",
        text: "{archive,9,Feed,36,33,36}{entry,7,t36,36}{entry,12,t35,35}{entry,4,t34,34}{entry,14,t33,33}{end}",
        changed: "3c6df379220eede86597abdb73789798fa4388f5f675f5e7f64db64973211f0e",
    },
    Document {
        path: "archive/8",
        words: "show archive 8",
        text: "{archive,8,Feed,32,29,32}{entry,12,t32,32}{gone,15,31}{entry,17,t30,30}{entry,3,t29,29}{end}",
        changed: "be4fde6519f362b6a4128becbb01ea27bd4509aa196b6a4920a6f218e2f401af",
    },
    Document {
        path: "archive/7",
        words: "show archive 7",
        text: "{archive,7,Feed,28,25,28}{entry,11,t28,28}{gone,10,27}{gone,16,26}{end}",
        changed: "fd8d0d08ac241bdd811de691361b8308f077f3b8acd4cd3dc663307ef9b79438",
    },
    Document {
        path: "archive/6",
        words: "show archive 6",
        text: "{archive,6,Feed,24,21,24}{entry,16,t24,24}{entry,15,t23,23}{entry,12,t22,22}{gone,9,21}{end}",
        changed: "8af7ae9ce325c436649cec77e09d44cc39280fd4338882475e38914584300d13",
    },
    Document {
        path: "archive/5",
        words: "show archive 5",
        text: "{archive,5,Feed,20,17,20}{entry,10,t20,20}{entry,14,t19,19}{entry,13,t18,18}{entry,12,t17,17}{end}",
        changed: "9a5ae2981af1a8b648e0e4a8af69efedb86162e2454fe5563b35fa2c67f0b1c4",
    },
    Document {
        path: "archive/4",
        words: "show archive 4",
        text: "{archive,4,Feed,16,13,16}{entry,11,t16,16}{entry,10,t15,15}{gone,1,13}{end}",
        changed: "4657c057b79cd5795980682b425dd39233f0d16757ca5d8a6c65292b26336465",
    },
    Document {
        path: "archive/3",
        words: "show archive 3",
        text: "{archive,3,Feed,12,9,12}{entry,9,t12,12}{entry,1,t11,11}{entry,8,t10,10}{entry,7,t9,9}{end}",
        changed: "d8807956f31832d7b1d12c4a3e297292afe64772ad881fe4c4277f72106caebd",
    },
    Document {
        path: "archive/2",
        words: "show archive 2",
        text: "{archive,2,Feed,8,5,8}{gone,6,8}{entry,1,t6,6}{entry,5,t5,5}{end}",
        changed: "a3ca3e47b69a903ce24227255f87a2c09dcfd8fdc24dd1b215bcc7704161a254",
    },
    Document {
        path: "archive/1",
        words: "show archive 1",
        text: "{archive,1,Feed,4,1,4}{entry,4,t4,4}{entry,3,t3,3}{entry,2,t2,2}{entry,1,t1,1}{end}",
        changed: "eca3bf96cd607f5d6122faabaf9cc9b85117a9109719eb4097bb9cf79c1e6aff",
    },
];

/// The certificate of the documents.
const CERTIFICATE: &str = "\
coverage 1\n\
feed 6d1f0c5a-93be-4c27-8d10-2b7f9e4a5c36 http://feed.example/\n\
version 60\n\
document http://feed.example/feed 65f3a1b69b47919cbdf38d0bf792d8b35a2d5cad2734333cad44d5c491411fb2\n\
document http://feed.example/archive/14 4876a84c15ab0010a1e5cf186a8c6e684d88ec9c39740ca057662168bbf01ec5\n\
document http://feed.example/archive/13 a2a40fb8b6bad46d716ad744ff9bb54caa394a7c10ce066356066aac43d0f352\n\
document http://feed.example/archive/12 84f53c9158e7cdeaf647ebc35643520f43c7d10e0df9a05a0b2fe2a50076c279\n\
document http://feed.example/archive/11 a6396b322b0b8b43bf70ecc74847bcbb45c58a764ccd53d1d74d35e0ce64c555\n\
document http://feed.example/archive/10 f8107a766f767150b1b6988cb2b795cefe8973ca7a8aef336cb5489ff85632ed\n\
document http://feed.example/archive/9 1068166794a916cdbcddb2f75542bf3bbaed96ecea51f123c4b1ad29b0ea8660\n\
document http://feed.example/archive/8 442c83272dacf1985d16bb07f929fefdbae368925d308879a994b201740cd7a4\n\
document http://feed.example/archive/7 2ce81c897d97edccc683cfaf7c063a6aaa77bd84a2b7739779618875f0232146\n\
document http://feed.example/archive/6 59bdcade1fded6a702e3fa36059fdc0fe918a3026de01e03b4b6bd6dd105b26a\n\
document http://feed.example/archive/5 047d545eca6b14e0dddf17f734ac5411b32b8113ffe16b4e752c2a1d6b41c5ab\n\
document http://feed.example/archive/4 5ef8c222fbcde0a5f7f0b1ebbf69c30fb1a88c2c0dbf569f302ff3da4b843f19\n\
document http://feed.example/archive/3 2a654603574e66c15f60037fe3dccf626169c00800342f9b34a6be5e0d86e248\n\
document http://feed.example/archive/2 d7b81fe9cdb483b57f85c03257489313e5dc886c7c1be3ef3d35e277ef8ef9ec\n\
document http://feed.example/archive/1 f72d5fe2c64604f745ec73f57c106f710c7b30aa657d0ff77475629813a71b51\n\
live 11 de3868d88a067f9c60c74dbefd081780dd6ddc580d322d389e3e9ced2c513ac2\n\
end\n\
";

const ACCEPTED: &str = "accepted 60 11\n";

#[test]
fn its_documents_are_shown(rt: HostRuntime) {
    let alloc = rt.alloc();
    let mut disk = fresh(&rt, alloc, 0);
    ran(&rt, alloc, &mut disk, "init * --window 4", b"");
    let lines = expanded(&rt, alloc, LINES);
    ran(&rt, alloc, &mut disk, "apply", lines.as_slice());
    for document in &DOCUMENTS {
        let text = expanded(&rt, alloc, document.text);
        let end = ran(&rt, alloc, &mut disk, document.words, b"");
        assert!(rt; end.is(0, text.as_slice()), "{}", document.words);
    }
    drop(disk);
}

/// A harm to a document of a pile: whether it is offered with a changed byte, and how often it is offered after that.
type Harm = (bool, u32);

/// No harm.
const NONE: Harm = (false, 1);

/// Appends the offers that a harm leaves of a document.
fn push_harmed(
    rt: &impl Abort,
    alloc: Global,
    pile: &mut Vec<u8>,
    document: &Document,
    (is_changed, count): Harm,
) {
    let address = address_of(rt, alloc, document);
    let text = expanded(rt, alloc, document.text);
    if is_changed {
        let mut other = Vec::from_slice(alloc, text.as_slice()).expect(rt, "memory");
        let middle = other.len() / 2;
        let byte = other.as_mut_slice().get_mut(middle).expect(rt, "a byte");
        *byte ^= 1;
        push_offer(rt, alloc, pile, address.as_str(), other.as_slice());
    }
    for _ in 0..count {
        push_offer(rt, alloc, pile, address.as_str(), text.as_slice());
    }
}

/// The address of a document.
fn address_of(rt: &impl Abort, alloc: Global, document: &Document) -> String {
    let path = document.path;
    format!(in alloc; "http://feed.example/{path}").expect(rt, "memory")
}

/// The pile of the documents, the one at `first` before the one that comes `step` places after it, counted round, and so
/// on. The one at `place` is harmed.
fn pile_of(
    rt: &impl Abort,
    alloc: Global,
    (first, step): (usize, usize),
    (place, harm): (usize, Harm),
) -> Vec<u8> {
    let mut pile = Vec::from_slice(alloc, b"pile 1\n").expect(rt, "memory");
    let mut at = first;
    for _ in 0..DOCUMENTS.len() {
        let index = at % DOCUMENTS.len();
        let document = DOCUMENTS.get(index).expect(rt, "a document");
        let left = if index == place { harm } else { NONE };
        push_harmed(rt, alloc, &mut pile, document, left);
        at = at.wrapping_add(step);
    }
    pile
}

/// Audits the certificate against a pile, and compares the verdict.
fn expect_verdict<D: Disk>(
    rt: &impl Abort,
    alloc: Global,
    disk: &mut D,
    pile: &[u8],
    (status, wanted): (u8, &str),
) {
    let mut input = Vec::from_slice(alloc, CERTIFICATE.as_bytes()).expect(rt, "memory");
    push(rt, &mut input, pile);
    let end = ran(rt, alloc, disk, "audit", input.as_slice());
    assert!(rt; end.is(status, wanted.as_bytes()), "{wanted}");
}

/// The orders in which the documents are offered.
static ORDERS: [(usize, usize); 5] = [(0, 1), (14, 14), (6, 1), (0, 2), (3, 7)];

#[test]
fn its_certificate_is_printed_and_accepted(rt: HostRuntime) {
    let alloc = rt.alloc();
    for &order in &ORDERS {
        let pile = pile_of(&rt, alloc, order, (0, NONE));
        let mut disk = fresh(&rt, alloc, 0);
        let printed = ran(&rt, alloc, &mut disk, "mirror *base", pile.as_slice());
        assert!(rt; printed.is(0, CERTIFICATE.as_bytes()), "{order:?}");
        expect_verdict(&rt, alloc, &mut disk, pile.as_slice(), (0, ACCEPTED));
        drop(disk);
    }
}

/// A changed document, a lost one, a doubled one, and one that is changed and then as it is.
static HARMS: [Harm; 4] = [(true, 0), (false, 0), (false, 2), (true, 1)];

/// The verdict if a document is harmed.
fn verdict_of(
    rt: &impl Abort,
    alloc: Global,
    document: &Document,
    (is_changed, count): Harm,
) -> (u8, String) {
    let (address, digest) = (address_of(rt, alloc, document), document.changed);
    let line = if count > 0 {
        String::from_str(alloc, ACCEPTED)
    } else if is_changed {
        format!(in alloc; "digest differs {address} {digest}\n")
    } else {
        format!(in alloc; "no document {address}\n")
    };
    let status = if count > 0 { 0 } else { 3 };
    (status, line.expect(rt, "memory"))
}

#[test]
fn harms_are_found(rt: HostRuntime) {
    let alloc = rt.alloc();
    let mut disk = fresh(&rt, alloc, 0);
    for (place, document) in DOCUMENTS.iter().enumerate() {
        for &harm in &HARMS {
            let pile = pile_of(&rt, alloc, (0, 1), (place, harm));
            let (status, line) = verdict_of(&rt, alloc, document, harm);
            expect_verdict(
                &rt,
                alloc,
                &mut disk,
                pile.as_slice(),
                (status, line.as_str()),
            );
        }
    }
    drop(disk);
}
