mod countdown;
mod wait_set;
