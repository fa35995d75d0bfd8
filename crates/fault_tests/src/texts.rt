//! Lines and lists that several of these tests share.

/// Three rooms and three people, of whom two have a home.
pub const REGISTER: &str = "\
room H1\n\
room H2\n\
room V\n\
person T1 key00000000000t1 Tim Tan\n\
person T2 key00000000000t2 Tom Tao\n\
person N key000000000000n Nia Noor\n\
home T1 H1\n\
home T2 H2\n";

/// Lines of a round in which all three people of `REGISTER` move, up to the publication of the results. The order is
/// T1, T2, N.
pub const ROUND: &str = "\
open\n\
choose T1 H2\n\
choose T2 H1\n\
choose N H1 V\n\
close\n\
draw 0000000000000003 0000000000000001 0000000000000002\n\
run\n\
publish\n";

/// Lines of a round in which T2 leaves the college, up to the publication of the results. T1 gets T2's room. N, who
/// has a later grade, gets T1's room.
pub const LEAVING: &str = "\
grade N 2\n\
grade T1 1\n\
grade T1 0\n\
open\n\
choose T1 H2\n\
choose T2 H1\n\
choose N H1 V\n\
going T2\n\
close\n\
draw 0000000000000001 0000000000000002\n\
run\n\
publish\n";

/// Two rooms.
pub const ROOMS: &str = "room\nH1\nH2\n";

/// Three people, one of whom has a home. The list has a byte order mark, records that end as on Windows, and quotes.
pub const PEOPLE: &str = "\u{feff}person,name,key,home\r\n\
E1,Ann Ash,key00000000000e1,H1\r\n\
E2,\"Bo, B.\",key00000000000e2,\r\n\
E3,Cy Coy,key00000000000e3,\r\n";

/// Grades of the people in `PEOPLE`. One person has two records.
pub const GRADES: &str = "person,grade\nE2,3\nE1,0\nE3,9\nE2,1\n";

/// The choices of one person in `PEOPLE`.
pub const CHOICES: &str = "person,choices\nE1,H2\n";
