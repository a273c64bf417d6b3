// The layers together, run.
use super::*;
use crate::reader::Reader;
use forecast::forecast::Forecast;
use interfaces::code::Code;
use interfaces::state::ReaderState;

#[test]
fn a_ninth_value_is_refused(rt: HostRuntime) {
    let mut reader = Reader::new();
    for i in 0..8u8 {
        assert_eq!(rt; reader.put_value(&[i; 34], &[i]), Ok(()));
    }
    assert_eq!(rt; reader.put_value(&[8; 34], &[8]), Err(Code::Memory));
    assert_eq!(rt; reader.put_value(&[7; 34], &[1, 2]), Ok(()));
    let mut value = [9; 64];
    assert_eq!(rt; reader.stored_value(&[7; 34], &mut value), Ok(2));
    assert_eq!(rt; value[1], 2);
    assert_eq!(rt; value[2], 0);
}

#[test]
fn forecasts_nest(rt: HostRuntime) {
    let mut reader = Reader::new();
    assert_eq!(rt; reader.extend(3, &[1; 32]), Ok(()));
    let mut first = Forecast::new(reader);
    assert_eq!(rt; first.plan(3, &[2; 32]), Ok(()));
    let mut second = Forecast::new(first);
    assert_eq!(rt; second.plan(4, &[3; 32]), Ok(()));
    let mut pcr = [0; 32];
    assert_eq!(rt; second.pcr(3, &mut pcr), Ok(()));
    assert_eq!(rt; pcr[31], 2);
    assert_eq!(rt; second.pcr(4, &mut pcr), Ok(()));
    assert_eq!(rt; pcr[0], 3);
    assert_eq!(rt; second.change_count(), 1);
}
