// Sets of joints, at the edges of words and past the last joint.
use frame::{JointId, JointSet};

#[test]
fn edges_of_words(rt: HostRuntime) {
    let mut set = JointSet::empty();
    assert_eq!(rt; set.first(), None);
    for joint in [511, 64, 63, 200] {
        assert!(rt; set.insert(JointId(joint)));
        assert_eq!(rt; set.first().is_some(), true);
    }
    assert_eq!(rt; set.len(), 4);
    assert_eq!(rt; set.first(), Some(JointId(63)));
    assert!(rt; !set.insert(JointId(64)));
    assert!(rt; set.remove(JointId(63)) && !set.remove(JointId(63)));
    assert_eq!(rt; set.first(), Some(JointId(64)));
    assert_eq!(rt; set.len(), 3);
}

#[test]
fn past_the_last_joint(rt: HostRuntime) {
    let mut set = JointSet::below(513);
    assert_eq!(rt; set.len(), 512);
    assert!(rt; !set.insert(JointId(512)) && !set.contains(JointId(512)));
    assert!(rt; !set.remove(JointId(65535)));
    assert_eq!(rt; set.len(), 512);
}

#[test]
fn parts_and_joins(rt: HostRuntime) {
    let small = JointSet::below(65);
    let mut large = JointSet::below(130);
    assert!(rt; small.is_subset(&large) && !large.is_subset(&small));
    assert_eq!(rt; small.union(&large).len(), 130);
    assert!(rt; large.remove(JointId(0)));
    assert!(rt; !small.is_subset(&large));
    assert_eq!(rt; small.intersection(&large).len(), 64);
}
