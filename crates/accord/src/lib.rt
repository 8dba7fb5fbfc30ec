// What the reader's side writes and reads is what the tags take and give: theorems over both sides' calls, no code of its own.
#![tactic(auto)]
