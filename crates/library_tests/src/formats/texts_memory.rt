//! Refused memory of texts and programs: each call answers want of it, whichever of its blocks is refused.
use apple_text::{HighBit, TakeError, TextForm, bytes_of, text_of};
use applesoft::{ListError, TokenError, list, tokens};
use std::alloc::Global;
use test_volumes::Refusing;

const PROGRAM: &str = "10 PRINT \"HELLO\"\n20 GOTO 10\n";

#[derive(Clone, Copy, Debug)]
enum Call {
    Show,
    Take,
    List,
    Tokens,
}

// Whether a call over a heap answers want of memory.
fn has_no_memory(call: Call, heap: &Refusing<Global>) -> bool {
    let form = TextForm {
        high: HighBit::Off,
        zeros: false,
    };
    match call {
        Call::Show => text_of(heap, &[0x84; 40]).is_err(),
        Call::Take => matches!(
            &bytes_of(heap, form, PROGRAM.as_bytes()),
            Err(TakeError::Memory)
        ),
        Call::List => matches!(
            &list(heap, &[9, 8, 10, 0, 0xba, 0x41, 0xba, 0, 0, 0]),
            Err(ListError::Memory)
        ),
        Call::Tokens => matches!(&tokens(heap, PROGRAM.as_bytes()), Err(TokenError::Memory)),
    }
}

#[test]
fn each_refused_block_is_told(rt: HostRuntime) {
    for call in [Call::Show, Call::Take, Call::List, Call::Tokens] {
        let heap = Refusing::none(rt.alloc());
        assert!(rt; !has_no_memory(call, &heap) && heap.asked() > 0, "{call:?}");
        for before in 0..heap.asked() {
            let refusing = Refusing::one(rt.alloc(), before);
            assert!(rt; has_no_memory(call, &refusing), "{call:?} {before}");
        }
    }
}
