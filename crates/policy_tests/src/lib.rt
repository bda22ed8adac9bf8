#![tactic(auto)]

// Example lists, and the places that the delivered policies name in them.
#[cfg(test)]
mod policies {
    use policy::longest_idle::LongestIdle;
    use policy::policy::Policy;
    use policy::turnabout::Turnabout;
    use replay::candidate::Candidate;

    fn able(task: u32, stamp: u32) -> Candidate {
        Candidate { task, stamp }
    }

    // As many tasks as can be live at once, all with one stamp but the one at this place, if any,
    // which was idle for longer.
    fn crowd(idle: usize) -> [Candidate; 64] {
        let mut tasks = [able(1, 100); 64];
        for (number, (place, task)) in (1..).zip(tasks.iter_mut().enumerate()) {
            let stamp = if place == idle { 99 } else { 100 };
            *task = able(number, stamp);
        }
        tasks
    }

    #[test]
    fn the_longest_idle_task(rt: HostRuntime) {
        let mut policy = LongestIdle;
        let lists: [(&[Candidate], usize); 6] = [
            (&[], 0),
            (&[able(9, 700)], 0),
            (&[able(1, 4), able(2, 5), able(3, 6)], 0),
            (&[able(1, 6), able(2, 4), able(3, 5)], 1),
            (&[able(1, 6), able(2, 5), able(3, 4)], 2),
            (&[able(1, 0), able(2, 4294967295)], 0),
        ];
        for (list, place) in lists {
            assert_eq!(rt; policy.name_task(list), place);
        }
    }

    #[test]
    fn even_stamps_go_by_number(rt: HostRuntime) {
        let mut policy = LongestIdle;
        let lists: [(&[Candidate], usize); 5] = [
            (&[able(4, 7), able(5, 7)], 0),
            (&[able(5, 7), able(4, 7)], 1),
            (&[able(2, 8), able(4, 7), able(5, 7)], 1),
            (&[able(9, 7), able(4, 7), able(5, 7), able(3, 7)], 3),
            (&[able(1, 7), able(9, 6), able(8, 6)], 2),
        ];
        for (list, place) in lists {
            assert_eq!(rt; policy.name_task(list), place);
        }
    }

    #[test]
    fn the_longest_idle_of_a_crowd(rt: HostRuntime) {
        let mut policy = LongestIdle;
        for place in [0, 1, 31, 62, 63] {
            assert_eq!(rt; policy.name_task(&crowd(place)), place);
        }
        assert_eq!(rt; policy.name_task(&crowd(64)), 0);
    }

    #[test]
    fn longest_idle_takes_the_first_leaf(rt: HostRuntime) {
        let mut policy = LongestIdle;
        assert_eq!(rt; policy.name_leaf(&[]), 0);
        assert_eq!(rt; policy.name_leaf(&[7]), 0);
        assert_eq!(rt; policy.name_leaf(&[3, 5, 15]), 0);
        assert_eq!(rt; policy.name_leaf(&[0; 64]), 0);
    }

    #[test]
    fn turnabout_takes_the_ends_of_a_crowd(rt: HostRuntime) {
        let mut policy = Turnabout::new();
        let tasks = crowd(40);
        assert_eq!(rt; policy.name_task(&tasks), 0);
        assert_eq!(rt; policy.name_task(&tasks), 63);
        assert_eq!(rt; policy.name_task(&tasks), 0);
        assert_eq!(rt; policy.name_leaf(&[0; 64]), 63);
        assert_eq!(rt; policy.name_leaf(&[0; 64]), 0);
        assert_eq!(rt; policy.name_leaf(&[0; 64]), 63);
    }

    #[test]
    fn tasks_and_leaves_share_the_turns(rt: HostRuntime) {
        let mut policy = Turnabout::new();
        let tasks = [able(1, 9), able(2, 8), able(4, 7)];
        assert_eq!(rt; policy.name_task(&tasks), 0);
        assert_eq!(rt; policy.name_leaf(&[0, 2]), 1);
        assert_eq!(rt; policy.name_task(&tasks), 0);
        assert_eq!(rt; policy.name_task(&tasks), 2);
        assert_eq!(rt; policy.name_leaf(&[5, 6, 7, 8]), 0);
        assert_eq!(rt; policy.name_leaf(&[5, 6, 7, 8]), 3);
    }

    // A list with one place, or none, uses up a turn as well.
    #[test]
    fn short_lists_use_up_a_turn(rt: HostRuntime) {
        let mut policy = Turnabout::new();
        let one = [able(3, 5)];
        let two = [able(3, 5), able(4, 6)];
        assert_eq!(rt; policy.name_task(&one), 0);
        assert_eq!(rt; policy.name_task(&one), 0);
        assert_eq!(rt; policy.name_task(&one), 0);
        assert_eq!(rt; policy.name_task(&two), 1);
        assert_eq!(rt; policy.name_task(&[]), 0);
        assert_eq!(rt; policy.name_leaf(&[]), 0);
        assert_eq!(rt; policy.name_leaf(&[9]), 0);
        assert_eq!(rt; policy.name_leaf(&[]), 0);
        assert_eq!(rt; policy.name_task(&two), 0);
        assert_eq!(rt; policy.name_task(&two), 1);
    }
}
