//! Recordings in windows of some sizes: the end of a window falls before and behind each fault, between the lines of
//! two migrations, and while a processor idles.

use crate::calls::wants_in_windows;
use crate::machines::{
    BIRTH_AT_UPPER_BOUND, DEATH_THEN_BIRTH_ELSEWHERE, IDLE_ABOVE_SLACK, IDLE_AT_SLACK,
    IDLE_FAULT_AT_LINE_OF_OTHER_PROCESSOR, MIGRATION_OF_SLEEPING_TASK, MIGRATION_OF_WAITING_TASK,
    MIGRATION_VALUE_ONE_MORE, ONE_SWITCH, Recording, SLEEP_THEN_BIRTH_ELSEWHERE,
    SUMMARY_OVER_TWO_PROCESSORS, THREE_FAULTS_ON_THREE_PROCESSORS, TWO_FAULTS_FIRST_LINE_NAMED,
    TWO_PROCESSORS_IDLE_LOWEST_NAMED,
};
use std::test::Fail;

static SIZES: [usize; 4] = [1, 2, 7, 4096];

#[test]
fn windows_of_any_size_come_to_the_verdict_of_the_whole(rt: HostRuntime) -> Result<(), Fail> {
    for recording in [
        &BIRTH_AT_UPPER_BOUND,
        &DEATH_THEN_BIRTH_ELSEWHERE,
        &IDLE_ABOVE_SLACK,
        &IDLE_AT_SLACK,
        &IDLE_FAULT_AT_LINE_OF_OTHER_PROCESSOR,
        &MIGRATION_OF_SLEEPING_TASK,
        &MIGRATION_OF_WAITING_TASK,
        &MIGRATION_VALUE_ONE_MORE,
        &ONE_SWITCH,
        &SLEEP_THEN_BIRTH_ELSEWHERE,
        &SUMMARY_OVER_TWO_PROCESSORS,
        &THREE_FAULTS_ON_THREE_PROCESSORS,
        &TWO_FAULTS_FIRST_LINE_NAMED,
        &TWO_PROCESSORS_IDLE_LOWEST_NAMED,
    ] {
        wants_in_windows(&rt, rt.alloc(), recording, &SIZES)?;
    }
    Ok(())
}
