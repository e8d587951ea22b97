use super::try_rows;
use sa_base::Memory;

/// Names, descriptors, arrays and entries, behind a descriptor `d`; then tasks and calls, behind a descriptor
/// `d` and an array `a`; then texts and lists, behind an array `a` of 8,192 entries and an array `b` of 2.
static ROWS: &str = "~descr d nan|~|end|
ok descr <32*n> nan
5:2 descr <33*n> nan
ok array <32*n> d str 1
5:2 array <33*n> d str 1
4:2 array n <33*n> str 1
ok <7*descr d@ nan|>
5:9 <8*descr d@ nan|>
4:9 <7*descr d@ nan|>descr d nan
ok <64*array a@ d str 1|>
5:66 <65*array a@ d str 0|>
ok array a d str 8192|array b d str 0
5:2 array a d str 8193
5:3 <2*array a@ d str 8192|>
ok <64*array a@ d str 128|>
5:4 <2*array a@ d str 4096|>array b d str 1
ok <7*descr d@ nan|array a@ d@ str 8192|>
ok descr e nan|<2*array a@ d str 4096|>array b e str 8192
~descr d nan|array a d str 1|~|end|
ok <64*task|>
5:67 <65*task|>
ok task|<1024*show a|>task
5:1028 task|<1025*show a|>
ok task|<1024*set a na|>
5:1028 task|<1025*stats d|>
0,1,1 task|show a|<63*task|show a|set a na|show a|set a na|copy a into a|>
5:1029 task|<1021*show a|>task|show a|set a na|show a|set a na|
4:4 task|show <33*n>
~descr d nan|array a d str 8192|descr e nan|array b e str 2|~|end|
ok descr f text \"<65536*x>\"
5:5 descr f text \"<65537*x>\" strict
2:5 descr f text \"<65537*x>\" x
4:5 descr d text \"<65537*x>\"
ok task|set a \"<65536*x>\"
5:6 task|set a \"<65537*x>\"
ok task|set a \"<32768*é>\"
5:6 task|set a \"<32768*é>x\"
ok task|set a \"<32768*\\u{e9}>\"
5:6 task|set a \"<65537*\\\">\"
5:6 task|set b (na,\"<65537*x>\",na,na)
2:6 task|set a (\"<65537*x>\",5)
ok task|set a (<8191*na,>na)
ok task|set a (<8191*\"@\",>\"\")
5:6 task|set a (<8192*na,>na)
2:6 task|set a (<8192*na,>5)
8:6 task|set b (<8191*na,>na)
5:6 task|set b (<8192*na,>na)
4:6 task|set c (<8192*na,>na)
3:5 set c (<8192*na,>na)
";

#[test]
fn what_there_may_be_at_most(rt: HostRuntime) -> Result<(), Memory> {
    try_rows(&rt, rt.alloc(), ROWS)
}
