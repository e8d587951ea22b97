use super::try_rows;
use sa_base::Memory;

/// Lines of calls that make texts, and of some that do not. Before them stand descriptors of different rules,
/// `t` and `u` with the same text, and arrays of 2 entries, `one` of 1.
static ROWS: &str =
    "~descr d nan|descr e other|descr n absent|descr t text \"x\"|descr u text \"x\"|array a d str 2|array b e str 2|array c n str 2|array w t str 2|array v u str 2|array one d str 1|array add d str 2|task|~|end|
0,2,1 add a \"x\"
ok add \"x\" a
ok add \"x\" \"y\"
0,2,1 add a a into a
0,2,1 add a (\"x\",\"y\") into c
0,1,1 add one one into a
ok add (\"x\",\"y\") one
0,2,1 add add add into add
0,2,1 multiply a 3
0,2,1 multiply a (3,-1) into a
0,2,1 multiply a -007
ok multiply \"x\" (1,-0,3)
ok multiply \"x\" (<8191*1,>1)
0,2,1 multiply a -9223372036854775808
0,2,1 multiply a 9223372036854775807
0,2,1 center a 5
0,2,1 center a 5 into a
0,2,1 center a 5 \".\" into a
0,2,1 center a 5 (\".\")
0,2,1 ljust a 5 \"\\u{e9}\"
0,2,1 rjust a (5,6) \"é\" into a
0,2,1 zfill a 5
0,2,1 zfill a 5 into c
0,2,1 strip a
0,2,1 strip a into a
0,2,1 strip a \"x\" into a
0,2,1 lstrip a one
0,2,1 rstrip a (\"x\",\"y\")
2:14 add
2:14 add a
2:14 add a into a
2:14 add a a a
2:14 add a a into
2:14 add a a into a a
2:14 add a a onto a
2:14 add a (\"x\",1)
2:14 add a (1,\"x\")
2:14 add a (na,1)
2:14 add a (1,na)
2:14 add a ()
2:14 multiply a ()
2:14 multiply a (1,)
2:14 multiply a (,1)
2:14 multiply a (1
2:14 multiply a 1)
2:14 multiply a (1)2
2:14 multiply a (1;2)
2:14 multiply a ((1))
2:14 multiply a (1, 2)
2:14 multiply a 1,2
2:14 multiply a -
2:14 multiply a +1
2:14 multiply a (1,--2)
2:14 multiply a (9223372036854775808,\"x\")
2:14 multiply a (<8192*1,>na)
2:14 center a
2:14 center a 5 a
2:14 center a 5 into
2:14 center a 5 \".\" \".\"
2:14 zfill a 5 \"0\"
2:14 strip a \"x\" \"y\"
2:14 strip a \"x\" into
2:14 strip into a
4:14 add a x
4:14 add d a
4:14 strip a into x
4:14 multiply x 9223372036854775808
5:14 multiply a 9223372036854775808
5:14 multiply a (1,-9223372036854775809)
5:14 multiply a (<8192*1,>1)
5:14 center a 5 \"<65537*x>\"
5:14 add a[0,9,1] (\"x\",na,\"<65537*x>\")
6:14 multiply a[2,1,1] \"x\"
6:14 strip a into a[0,3,1]
7:14 multiply a \"x\"
7:14 multiply a a
7:14 multiply a na
7:14 multiply 5 5
7:14 multiply a (\"x\",\"y\",\"z\")
7:14 add a 5
7:14 add 5 a
7:14 add a na
7:14 add a (\"x\",na)
7:14 center a 5 na
7:14 center a 5 3
7:14 center a 5 (\".\",na)
7:14 center a 5 na into one
7:14 center a \"5\" \"ab\"
7:14 zfill na 5
7:14 strip a na
7:14 strip a 5
7:14 set a 5
7:14 set a (1,2,3)
8:14 add a (\"x\",\"y\",\"z\")
8:14 multiply a (1,2,3)
8:14 strip a into one
8:14 add a b into one
8:14 center a 5 \"ab\" into one
9:14 add a b
9:14 add a w
9:14 strip a b
9:14 multiply a 5 into b
9:14 center b 5 \"ab\" into a
0,2,1 add a c into a
0,2,1 add c b
0,2,1 add c c into a
0,2,1 strip w w into v
0,2,1 copy a into b
10:14 center a 5 \"ab\"
10:14 center a 5 \"\"
10:14 center a 5 (\".\",\".\")
10:14 center a 5 (\".\",\".\",\".\")
10:14 ljust a 5 \"e\\u{301}\" into a
10:14 rjust c 5 \"\" into b
";

#[test]
fn calls_that_make_texts(rt: HostRuntime) -> Result<(), Memory> {
    try_rows(&rt, rt.alloc(), ROWS)
}
