use super::try_rows;
use sa_base::Memory;

/// Views of an array `a` of 3 entries, the first version's; then slices of an array `b` of 3 entries.
static ROWS: &str = "~descr d nan|array a d str 3|task|~|end|
0,3,1 show a[0,3,1]
2,3,-1 show a[2,3,-1]
1,2,1 show a[1,2,01]
3,0,-5 show a[3,0,-5]
0,1,2147483647 show a[0,1,2147483647]
2,1,-2147483648 show a[2,1,-2147483648]
ok set a[0,2,2] (na,\"x\")
0,2,1 copy a[0,2,1] into a[1,2,1]
6:4 show a[0,4,1]
6:4 show a[2,2,1]
6:4 show a[3,1,1]
6:4 show a[4,0,1]
6:4 show a[0,1,0]
6:4 show a[0,0,0]
6:4 show a[-1,1,1]
6:4 show a[0,-1,1]
6:4 show a[4294967296,0,1]
6:4 show a[0,4294967297,1]
6:4 show a[0,1,2147483648]
6:4 show a[0,1,-2147483649]
6:4 set a[0,4,1] (na,na)
6:4 copy a into a[1,3,1]
5:4 show a[9223372036854775808,1,1]
5:4 show a[9,9223372036854775808,0]
5:4 set a[0,9,1] (na,<8192*na,>na)
4:4 show x[0,9223372036854775808,1]
8:4 set a[0,2,1] (na,na,na)
8:4 copy a[0,2,1] into a
2:4 show na[0,1,1]
2:4 show a[0,1]
2:4 show a[0,1,1,1]
2:4 show a[]
2:4 show a[0,1,1
2:4 show a[0,1,1]]
2:4 show a[0,1,1]x
2:4 show a[0,,1]
2:4 show [0,1,1]
2:4 show a[ 0,1,1]
2:4 show a[::]
2:4 set a[0:1] na
2:4 copy a into a[::-1]
2:4 show x[9:9223372036854775808]
~version 2|descr d nan|array b d str 3|task|~|end|
2,3,-1 show b[::-1]
1,2,1 show b[-2:]
0,1,2 show b[:-1:2]
0,0,1 show b[5:]
0,3,1 show b[:]
0,3,1 show b[::]
1,1,1 show b[1:2:]
0,3,1 show b[-9223372036854775808:9223372036854775807]
1,2,1 show b[1,2,1]
2,3,-1 copy b[::-1] into b[:]
ok set b[1:] (na,\"x\")
6:5 show b[::0]
6:5 show b[::9999999999]
6:5 show b[:0:-9999999999]
6:5 copy b into b[::0]
5:5 show b[9223372036854775808:]
5:5 show b[:-9223372036854775809:0]
5:5 show b[::9223372036854775808]
4:5 show x[::0]
8:5 copy b[1:] into b
2:5 show b[:::]
2:5 show b[1:x]
2:5 show b[1:2,1]
2:5 show b[:
";

#[test]
fn views_and_slices(rt: HostRuntime) -> Result<(), Memory> {
    try_rows(&rt, rt.alloc(), ROWS)
}
