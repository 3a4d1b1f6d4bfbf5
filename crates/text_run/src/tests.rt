use crate::{Program, serve};
use std::alloc::{AllocError, Global};

// Answers a text with itself.
struct Echo;

impl Program for Echo {
    type Fault = AllocError;

    const NAME: &'static str = "echo";

    fn answers(alloc: Global, text: &str) -> Result<String, AllocError> {
        String::from_str(alloc, text)
    }
}

#[test]
fn a_byte_order_mark_is_no_part_of_the_text(rt: HostRuntime) {
    for (input, answer) in [
        ("", ""),
        ("\u{FEFF}", ""),
        ("\u{FEFF}a\n", "a\n"),
        ("a\u{FEFF}", "a\u{FEFF}"),
    ] {
        let mut output = Vec::new(rt.alloc());
        assert!(rt; serve::<Echo, _, _>(rt.alloc(), input.as_bytes(), &mut output).is_ok());
        assert!(rt; output.as_slice() == answer.as_bytes());
    }
}
