//! Small logs, whose groups were worked by hand.
use crate::comparing::Case;
use crate::logs::Log;
use crate::scripts::{ALL, BY_LABEL, BY_NUMBER, COUNTS, GAMES, QUOTIENTS, SESSIONS};
use std::test::Fail;
use sym_given::check_threaded_cases;
use sym_given::scripts::{COUNTER, SMALL_SUMS};

const NONE: Log = Log::Text("");

const FIVE: Log = Log::Text("user,x\na,1\nb,2\na,3\nc,4\nb,5\n");

#[test]
fn groups_are_in_order_of_first_appearance(rt: HostRuntime) -> Result<(), Fail> {
    let some = Log::Text("user,x\nc,1\na,2\n");
    let none = Log::Text("user,x\n");
    let one = Log::Text("user,x\na,1\n");
    let letters = Log::Text("user\nd\nc\nb\na\nc\nd\nd\n");
    let repeated = Log::Text("user\na\nb\nc\nc\nb\nd\na\nd\n");
    let five = " a: 4 [ 1 3 ]\n b: 7 [ 2 5 ]\n c: 4 [ 4 ]\n";
    let led = " c: 5 [ 1 4 ]\n a: 6 [ 2 1 3 ]\n b: 7 [ 2 5 ]\n";
    let cases = [
        Case(SMALL_SUMS, NONE, none, 1, Some("")),
        Case(SMALL_SUMS, one, none, 1, Some(" a: 1 [ 1 ]\n")),
        Case(SMALL_SUMS, NONE, one, 1, Some(" a: 1 [ 1 ]\n")),
        Case(SMALL_SUMS, one, one, 1, Some(" a: 2 [ 1 1 ]\n")),
        Case(SMALL_SUMS, NONE, FIVE, 1, Some(five)),
        Case(SMALL_SUMS, NONE, FIVE, 2, Some(five)),
        Case(SMALL_SUMS, NONE, FIVE, 1_024, Some(five)),
        Case(SMALL_SUMS, some, FIVE, 1, Some(led)),
        Case(SMALL_SUMS, some, FIVE, 2, Some(led)),
        Case(SMALL_SUMS, some, FIVE, 1_024, Some(led)),
        Case(
            COUNTS,
            NONE,
            letters,
            1,
            Some(" d: 3\n c: 2\n b: 1\n a: 1\n"),
        ),
        Case(
            COUNTS,
            NONE,
            repeated,
            2,
            Some(" a: 2\n b: 2\n c: 2\n d: 2\n"),
        ),
        Case(
            COUNTS,
            letters,
            repeated,
            2,
            Some(" d: 5\n c: 4\n b: 3\n a: 3\n"),
        ),
    ];
    check_threaded_cases(&rt, rt.alloc(), &cases)
}

#[test]
fn keys_may_be_new_in_several_parts(rt: HostRuntime) -> Result<(), Fail> {
    let letters = Log::Text("user,x\nb,1\na,2\na,3\nb,4\nc,5\na,6\nb,7\nc,8\n");
    let begun = " b: 12 [ 1 4 7 ]\n a: 11 [ 2 3 6 ]\n c: 13 [ 5 8 ]\n";
    let before = Log::Text("user,x\nc,1\n");
    let led = " c: 14 [ 1 5 8 ]\n b: 12 [ 1 4 7 ]\n a: 11 [ 2 3 6 ]\n";
    let games = Log::Text(
        "team,end,note\nReds,win,a\nBlues,loss,b\nBlues,loss,c\nReds,win,d\nReds,draw,e\n\
         Blues,loss,f\nReds,win,g\nReds,draw,h\n",
    );
    let noted = " #0 Reds: ( #0 Reds ) [ a d g ] #0\n #2 Blues: ( #2 Blues ) [ ] #2\n \
                 #1 Reds: ( #1 Reds ) [ ] #2\n";
    let cases = [
        Case(SMALL_SUMS, NONE, letters, 2, Some(begun)),
        Case(SMALL_SUMS, before, letters, 2, Some(led)),
        Case(GAMES, NONE, games, 2, Some(noted)),
    ];
    check_threaded_cases(&rt, rt.alloc(), &cases)
}

#[test]
fn a_fault_ends_a_group_at_its_record(rt: HostRuntime) -> Result<(), Fail> {
    let before = Log::Text("user,x\na,20\na,1\nb,19\n");
    let sums = Log::Text("user,x\nb,1\nb,1\na,-5\nc,20\nb,-9\nc,1\n");
    let ended = " a: over 0 at 2\n b: over 0 at 2\n c: over 0 at 6\n";
    let quotients = Log::Text("user,x\na,5\nb,0\na,0\nb,1\na,3\nc,-3\n");
    let failed = " a: arithmetic at 3\n b: arithmetic at 2\n c: [ -3 ]\n";
    let fives = Log::Text("x\n5\n5\n5\n5\n5\n");
    let cases = [
        Case(SMALL_SUMS, before, sums, 1, Some(ended)),
        Case(SMALL_SUMS, before, sums, 2, Some(ended)),
        Case(QUOTIENTS, NONE, quotients, 1, Some(failed)),
        Case(QUOTIENTS, NONE, quotients, 4, Some(failed)),
        Case(COUNTER, NONE, fives, 1, Some(": over 0 at 4\n")),
        Case(COUNTER, fives, fives, 1, Some(": over 0 at 4\n")),
    ];
    check_threaded_cases(&rt, rt.alloc(), &cases)
}

#[test]
fn keys_and_updates_are_of_any_kind(rt: HostRuntime) -> Result<(), Fail> {
    let games = Log::Text(
        "team,end,note\nReds,win,first\nBlues,loss,\nReds,loss,rain\nReds,win,late\nBlues,win,x\n\
         Reds,draw,\n",
    );
    let noted = " #0 Reds: ( #0 Reds ) [ first late ] #0\n #2 Blues: ( #2 Blues ) [ ] #2\n \
                 #2 Reds: ( #2 Reds ) [ ] #2\n #0 Blues: ( #0 Blues ) [ x ] #0\n \
                 #1 Reds: ( #1 Reds ) [ ] #2\n";
    let numbers = Log::Text("x,note\n07,a\n7,b\n-1,\n+7,c\n");
    let labels = Log::Text("x,end\n90,win\n-90,loss\n20,win\n,draw\n-20,loss\n");
    let visits = Log::Text("ts,user\n10,a\n20,a\n60,a\n5,b\n61,a\n");
    let sessions = " a: ( 61 ) 2 [ 2 ]\n b: ( 5 ) 1 [ ]\n";
    let all = Log::Text("x\n3\n1\n2\n1\n");
    let cases = [
        Case(GAMES, NONE, games, 1, Some(noted)),
        Case(GAMES, NONE, games, 3, Some(noted)),
        Case(
            BY_NUMBER,
            NONE,
            numbers,
            1,
            Some(" 7: [ a b c ]\n -1: [  ]\n"),
        ),
        Case(
            BY_LABEL,
            NONE,
            labels,
            1,
            Some(" #0: 99\n #2: -99\n #1: 0\n"),
        ),
        Case(SESSIONS, NONE, visits, 1, Some(sessions)),
        Case(SESSIONS, NONE, visits, 2, Some(sessions)),
        Case(ALL, NONE, all, 1, Some(": [ 3 1 2 1 ]\n")),
        Case(ALL, all, all, 2, Some(": [ 3 1 2 1 3 1 2 1 ]\n")),
    ];
    check_threaded_cases(&rt, rt.alloc(), &cases)
}

#[test]
fn rows_are_those_of_csv(rt: HostRuntime) -> Result<(), Fail> {
    let quoted = Log::Text(
        "user,x\r\n\"a, \"\"b\"\"\",1\r\n\r\n\n\"c\nd\", 2 \r\"a, \"\"b\"\"\",+03\n\nc,\n",
    );
    let sums = " a, \"b\": 4 [ 1 3 ]\n c\nd: 2 [ 2 ]\n c: 0 [ 0 ]\n";
    let others = Log::Text("w,x,v,user\n\"\",1,\"\r\n\",a\n,2,,\"\"\n");
    let cases = [
        Case(SMALL_SUMS, NONE, quoted, 1, Some(sums)),
        Case(SMALL_SUMS, NONE, quoted, 2, Some(sums)),
        Case(SMALL_SUMS, NONE, quoted, 1_024, Some(sums)),
        Case(
            SMALL_SUMS,
            NONE,
            others,
            1,
            Some(" a: 1 [ 1 ]\n : 2 [ 2 ]\n"),
        ),
    ];
    check_threaded_cases(&rt, rt.alloc(), &cases)
}
