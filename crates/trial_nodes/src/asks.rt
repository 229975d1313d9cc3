//! Two replicas that ask each other, by hand.
use dpc_model::messages::NodeState;
use grant_core::grants::GrantCore;

#[test]
fn the_greater_number_yields(rt: HostRuntime) {
    let mut one = GrantCore::new(1, 1, 2);
    assert!(rt; one.want() == Some((1, 1)) && one.running());
    assert!(rt; one.on_ask(0, 1, 1, NodeState::UpFailure) && one.promised_to() == Some(0));
    assert!(rt; !one.on_grant(1, 1) && one.want().is_none());
    one.on_beat(0, 1, 1);
    assert!(rt; one.on_grant(1, 1));
    one.finish();
    assert_eq!(rt; (one.inc(), one.over()), (1, 1));
}

#[test]
fn the_lesser_number_goes_first(rt: HostRuntime) {
    let mut zero = GrantCore::new(0, 1, 2);
    zero.begin();
    assert!(rt; zero.want() == Some((1, 1)));
    assert!(rt; !zero.on_ask(1, 1, 1, NodeState::UpFailure));
    assert!(rt; zero.on_grant(1, 1) && !zero.on_grant(1, 2) && !zero.on_grant(0, 1));
}

#[test]
fn a_promise_to_an_absent_replica_ends(rt: HostRuntime) {
    let mut zero = GrantCore::new(0, 1, 2);
    assert!(rt; zero.on_ask(1, 1, 1, NodeState::Stable));
    zero.on_tick(&[true, false]);
    assert!(rt; zero.promised_to() == Some(1));
    zero.on_tick(&[false, true]);
    assert!(rt; zero.promised_to().is_none());
    assert!(rt; !zero.on_ask(1, 1, 1, NodeState::Stabilization));
}
