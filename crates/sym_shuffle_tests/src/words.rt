//! Words that an update reads: empty, long, equal and of any letters.
use crate::comparing::Case;
use crate::logs::Log;
use crate::scripts::NOTES;
use std::test::Fail;
use sym_given::check_threaded_cases;

const NONE: Log = Log::Text("");

#[test]
fn words_are_those_of_their_records(rt: HostRuntime) -> Result<(), Fail> {
    let before = Log::Text("user,first,x,end,second\nb,old,9,win,\n");
    let log = Log::Text(
        "user,first,x,end,second\na,one,1,win,one\nb,one,2,loss,two\na,,3,draw,two\n\
         b,dé,4,win,日本語\nc,,5,win,\na,\"x, y\",6,loss,é\nc,日本語,,draw,dé\n",
    );
    let alone = " a: [ one one  two x, y é ] ( é 6 #2 x, y )\n \
                 b: [ one two dé 日本語 ] ( 日本語 4 #0 dé )\n \
                 c: [   日本語 dé ] ( dé 0 #1 日本語 )\n";
    let led = " b: [ old  one two dé 日本語 ] ( 日本語 4 #0 dé )\n \
               a: [ one one  two x, y é ] ( é 6 #2 x, y )\n \
               c: [   日本語 dé ] ( dé 0 #1 日本語 )\n";
    let cases = [
        Case(NOTES, NONE, log, 1, Some(alone)),
        Case(NOTES, NONE, log, 3, Some(alone)),
        Case(NOTES, NONE, log, 1_024, Some(alone)),
        Case(NOTES, before, log, 1, Some(led)),
        Case(NOTES, before, log, 4, Some(led)),
    ];
    check_threaded_cases(&rt, rt.alloc(), &cases)
}

#[test]
fn words_may_be_long(rt: HostRuntime) -> Result<(), Fail> {
    let cases = [Case(NOTES, NONE, Log::Noted(1_100), 50, None)];
    check_threaded_cases(&rt, rt.alloc(), &cases)
}
