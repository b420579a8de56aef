//! What a hart asks, and what a refused call answers.
use rv_inst::Arch;
use wf_calls::{
    Ask, CREATE, DELETE, EXIT, MAP, MIGRATE, OWN_GENERATION, PUT_BYTE, QUIESCE, UNMAP, number_of,
    read_call,
};
use wf_outside::Refusal;

// A hart whose a7 is this, and whose a0 to a2 are 10 to 12.
fn calling(number: u64) -> Arch {
    let mut x = [0; 32];
    x[10] = 10;
    x[11] = 11;
    x[12] = 12;
    x[13] = 13;
    x[17] = number;
    Arch { pc: 0x1_0000, x }
}

#[test]
fn each_number_is_read(rt: HostRuntime) {
    let numbers = [
        EXIT,
        PUT_BYTE,
        MAP,
        UNMAP,
        OWN_GENERATION,
        MIGRATE,
        QUIESCE,
        DELETE,
        CREATE,
        9,
        u64::MAX,
    ];
    for (i, number) in numbers.into_iter().enumerate() {
        let call = Ask::Call {
            number,
            a0: 10,
            a1: 11,
            a2: 12,
        };
        assert_eq!(rt; read_call(&calling(number)), call, "call {number}");
        if i <= 8 {
            assert_eq!(rt; number, i as u64, "the number of call {i}");
        }
    }
}

#[test]
fn refusals_are_negated(rt: HostRuntime) {
    assert_eq!(rt; number_of(Refusal::Argument), -1);
    assert_eq!(rt; number_of(Refusal::Overlap { page: 16 }), -2);
    assert_eq!(rt; number_of(Refusal::Absent { page: 16 }), -3);
    assert_eq!(rt; number_of(Refusal::Leaving { page: 16 }), -4);
    assert_eq!(rt; number_of(Refusal::NoFrames { need: 55, free: 54 }), -5);
    assert_eq!(rt; number_of(Refusal::NoView { generation: 1 }), -6);
    assert_eq!(rt; number_of(Refusal::NotEmpty { hart: 1 }), -7);
    assert_eq!(rt; number_of(Refusal::Inside { at: 0x1_0104 }), -8);
    assert_eq!(rt; number_of(Refusal::Views), -9);
    assert_eq!(rt; number_of(Refusal::Number { n: 99 }), -10);
}
