// What is handed back beside a refusal: copied, compared and shown as its parts are.
use refusals::{HandedBack, Refusal};

#[test]
fn a_copy_of_what_is_handed_back_is_equal(rt: HostRuntime) {
    let back = HandedBack {
        value: 5u8,
        refusal: Refusal::Repeated,
    };
    let copy = back;
    assert_eq!(rt; copy, back);
    assert_ne!(rt;
        copy,
        HandedBack {
            value: 6u8,
            refusal: Refusal::Repeated
        }
    );
    assert_ne!(rt;
        copy,
        HandedBack {
            value: 5u8,
            refusal: Refusal::TooMany
        }
    );
    assert_eq!(rt; Refusal::from(copy), Refusal::Repeated);
}
