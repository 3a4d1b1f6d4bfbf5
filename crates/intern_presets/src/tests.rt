mod places;

use super::{digits, generated, laws, number, place, text};
use places::{END, PLACES};
use std::test::Fail;

#[test]
fn each_place_is_that_of_its_text(rt: HostRuntime) {
    for at in 0..END {
        assert_eq!(rt; text(at).and_then(|it| place(it)), Some(at));
    }
    assert_eq!(rt; text(END), None);
    assert_eq!(rt; text(u16::MAX), None);
}

#[test]
fn finds_presets_and_no_other_texts(rt: HostRuntime) {
    for (it, want) in [
        ("", Some(512)),
        ("rust-preserve-none", None),
        ("preserve_none", None),
        ("unsafe_", None),
        ("hello", None),
        ("\u{e9}", None),
        ("0", Some(0)),
        ("255", Some(255)),
        ("256", None),
        ("00", None),
        ("+5", None),
        ("<ra@gennew>0", Some(256)),
        ("<ra@gennew>7", Some(263)),
        ("<ra@gennew>255", Some(511)),
        ("<ra@gennew>256", None),
        ("<ra@gennew>07", None),
        ("<ra@gennew>", None),
    ] {
        assert_eq!(rt; place(it), want, "at {it}");
    }
}

#[test]
fn reads_what_it_finds(rt: HostRuntime) {
    for (it, at) in &PLACES {
        assert_eq!(rt; place(it), Some(*at), "the place of {it}");
        assert_eq!(rt; text(*at), Some(*it), "the text at {at}");
    }
}

#[test]
fn reads_numbers(rt: HostRuntime) {
    for (it, want) in [
        ("007", Some(7)),
        ("+5", Some(5)),
        ("+007", Some(7)),
        ("+0", Some(0)),
        ("00", Some(0)),
        ("256", Some(256)),
        ("00000000000000000000001", Some(1)),
        ("18446744073709551615", Some(18446744073709551615)),
        ("18446744073709551616", None),
        ("", None),
        ("+", None),
        ("++1", None),
        ("-0", None),
        ("1 ", None),
        ("0_u8", None),
        ("<ra@gennew>5", None),
    ] {
        assert_eq!(rt; number(it), want, "at {it}");
    }
}

#[test]
fn writes_numbers(rt: HostRuntime) {
    for (n, want, name) in [
        (0, "0", "<ra@gennew>0"),
        (255, "255", "<ra@gennew>255"),
        (256, "256", "<ra@gennew>256"),
        (
            18446744073709551615,
            "18446744073709551615",
            "<ra@gennew>18446744073709551615",
        ),
    ] {
        assert_eq!(rt; digits(n).as_str(), want);
        assert_eq!(rt; generated(n).as_str(), name);
    }
}

#[test]
fn laws_are_callable() {
    laws::texts_rise();
    laws::places_end();
    laws::a_place_is_that_of_its_text();
    laws::presets_differ();
    laws::only_integers_are_numbers();
    laws::numbered_lists_end();
}
