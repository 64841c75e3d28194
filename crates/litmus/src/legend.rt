//! What the words of the protocol's tables mean. Each follows its table where that is printed.

/// After the table of a private cache.
pub const CACHE: &str = "
n        the acknowledgements that the Data name
k        those that have come, from 0
hit      the access is performed: S, SM_AD and SM_A may be read, M and E read and written
joins    the access waits in the line's miss register, behind those that wait there
stalls   the access isn't taken before the line has left
busy     the eviction isn't taken before what the line awaits has come
not held the eviction isn't taken, since there is no copy
blocked  the message waits in its channel
-        it never comes in this state

Data in IS_D: where a write has joined, the core goes on from S as at write, in the same step.
Fwd-GetS, Fwd-GetM, Inv and Put-Ack come by one channel, first in first out: a Put-Ack that overtook one
of the others would leave it without a row. Data and Data-E come by another, Inv-Ack by one for each sender.
";

/// After the table of a directory.
pub const DIRECTORY: &str = "
r        the core that asks
o        the owner, and in S_D the core that was
x        all further sharers
blocked  the message waits in its channel
-        it never comes in this state

GetS of r with r among the sharers never comes up: who gives up a copy in S tells it by PutS, and asks anew
once that is acknowledged.
A core's requests come by its own channel, the Data home by another.
";
