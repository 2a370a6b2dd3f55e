// 01's starred readings: specs/Readings.antt has the one list and the one statement that all hold.
// The program run_readings runs them through the code.
#![tactic(auto)]
